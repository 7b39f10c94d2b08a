//! What SQL meets, and what every run of its statements promises.
ghost use Rattle.std.specs.Prelude.{◌≡◌, ℕ, true, List};
ghost use Rattle.hs_turns.specs.Database.{Database};
ghost use Rattle.hs_entries.specs.declared.item.Item.{Item};
ghost use Rattle.hs_turns.specs.Histories.{state};
ghost use Rattle.hs_turns.specs.Language.{Laws, Stands};
ghost use Rattle.hs_turns.specs.Promises.{AreMade, EachEnded, IsCommitted, IsFirst, IsInOrder, IsSerial, IsSnapshot};
ghost use Rattle.hs_language.specs.Reading.{Reading};
ghost use Rattle.hs_language.specs.Sql.{is_valid, sql};
ghost use Rattle.hs_reading.specs.BoundReading.{IsBound};
ghost use Rattle.hs_turns.specs.Dialect.{language_of};
ghost use Rattle.hs_turns.specs.Laws.{history_after};

/// SQL is a language as the laws of transactions ask it, whatever reading of texts gives it whose definitions are bound
/// statements, and which tells the tables that statements read and write.
pub fn sql_meets_the_laws()
    ensures { (r : Reading) → IsBound r → Laws (language_of (sql r)) }
{}

/// Serial: in a run of SQL a transaction at SERIALIZABLE that doesn't read its start answers as if it ran alone on the
/// commits just before its end, and changes the same. Where it was committed, the next state is what its statements make
/// of the state before, alone there, and each commit is of such a transaction or a definition's.
pub fn runs_of_sql_are_serial()
    ensures alone { (r : Reading) (opening : Database) (made : ℕ) (items : List Item) (n : ℕ) → IsBound r → Stands (language_of (sql r)) opening → EachEnded (history_after (sql r) opening made items n) (IsSerial (language_of (sql r)) opening) }
    ensures in_order { (r : Reading) (opening : Database) (made : ℕ) (items : List Item) (n : ℕ) → IsBound r → Stands (language_of (sql r)) opening → EachEnded (history_after (sql r) opening made items n) (IsInOrder (language_of (sql r)) opening) }
    ensures committed { (r : Reading) (opening : Database) (made : ℕ) (items : List Item) (n : ℕ) → IsBound r → Stands (language_of (sql r)) opening → EachEnded (history_after (sql r) opening made items n) IsCommitted }
    ensures made_by { (r : Reading) (opening : Database) (made : ℕ) (items : List Item) (n : ℕ) → IsBound r → Stands (language_of (sql r)) opening
        → AreMade (history_after (sql r) opening made items n).commits (history_after (sql r) opening made items n).ended }
{}

/// Prefix readers and Snapshots: in a run of SQL a transaction that reads its start answers as if it ran alone on the
/// commits before its start, and changes the same.
pub fn runs_of_sql_read_snapshots()
    ensures { (r : Reading) (opening : Database) (made : ℕ) (items : List Item) (n : ℕ) → IsBound r → Stands (language_of (sql r)) opening → EachEnded (history_after (sql r) opening made items n) (IsSnapshot (language_of (sql r)) opening) }
{}

/// First claimer: in a run of SQL a transaction at snapshot isolation puts or deletes no committed row that a commit between
/// its start and its end puts or deletes.
pub fn the_first_claimer_of_sql_wins()
    ensures { (r : Reading) (opening : Database) (made : ℕ) (items : List Item) (n : ℕ) → IsBound r → Stands (language_of (sql r)) opening → EachEnded (history_after (sql r) opening made items n) IsFirst }
{}

/// Valid prefixes: in the state after each number of the commits of a run of SQL every constraint holds, and each row fits
/// its columns.
pub fn prefixes_of_a_run_of_sql_are_valid()
    ensures { (r : Reading) (opening : Database) (made : ℕ) (items : List Item) (n k : ℕ) → IsBound r → Stands (language_of (sql r)) opening → is_valid (state opening (history_after (sql r) opening made items n).commits k) ≡ true }
{}
