//! Laws of SQL as a database system and of its runs, each on a function that does nothing. Proofs of other crates cite them from
//! `Tested.antt` and `Meets.antt` in `specs/`, where an impl can name them, and from `Runs.antt` in `proofs/`.
ghost use Rattle.std.specs.Prelude.{◌≡◌, ℕ, true, List, count_by};
ghost use Rattle.hs_conditions.specs.Texts.{checks};
ghost use Rattle.hs_engine.specs.Conditions.{has_condition};
ghost use Rattle.hs_engine.specs.Runs.{answers_among, history_over, language_over, lines_over};
ghost use Rattle.hs_engine.specs.Sql.{IsRegular, sql_system};
ghost use Rattle.hs_engine.specs.Standing.{sql_meaning};
ghost use Rattle.hs_entries.specs.declared.item.Item.{Item};
ghost use Rattle.hs_language.specs.Sql.{is_valid};
ghost use Rattle.hs_logged.specs.Over.{TestsTexts};
ghost use Rattle.hs_plainsql.specs.Naming.{are_named};
ghost use Rattle.hs_program.specs.Lawful.{IsSound};
ghost use Rattle.hs_program.specs.Meaning.{Opened};
ghost use Rattle.hs_run.specs.Items.{AreTold};
ghost use Rattle.hs_run.specs.Pieces.{told_by};
ghost use Rattle.hs_run.specs.Running.{pieces};
ghost use Rattle.hs_system.specs.Governed.{IsGoverned};
ghost use Rattle.hs_texttest.specs.Commits.{has_text};
ghost use Rattle.hs_texttest.specs.Told.{TestsConditions};
ghost use Rattle.hs_turns.specs.Histories.{state};
ghost use Rattle.hs_turns.specs.Laws.{is_item};
ghost use Rattle.hs_turns.specs.Lines.{printed, replies_among};
ghost use Rattle.hs_turns.specs.Promises.{AreMade, EachEnded, IsCommitted, IsFirst, IsInOrder, IsSerial, IsSnapshot};

/// A test tells which conditions of CHECK have a text, and so `has_text` tells which commits have one.
pub fn texts_of_sql_are_tested()
    ensures conditions { TestsConditions checks has_condition }
    ensures commits { TestsTexts checks (has_text checks has_condition) }
{}

/// SQL meets what is asked of a database system. Whatever room the log has, it meets the laws of transactions and tells
/// nothing but plain texts. What commits that may be made again make of a regular database is regular.
pub fn sql_is_a_database_system()
    ensures { IsGoverned are_named IsRegular sql_system }
{}

/// A run of SQL over what texts made is that of the machine of turns: what is ahead of it tells the lines of its turns. Among these
/// each item of the input has one reply, so at the end nobody waits. Where the items are such as an input has, and no constraint was
/// violated when the run began, each has one line that begins with `ok` or `refused` behind its session.
pub fn a_run_of_sql_is_that_of_the_machine()
    ensures told { (opened : Opened) (size : ℕ) (items : List Item) → told_by (pieces (sql_meaning.future opened size) items) ≡ printed (lines_over opened size items) }
    ensures replied { (opened : Opened) (size : ℕ) (items : List Item) (number : ℕ) → replies_among number (lines_over opened size items) ≡ count_by (is_item number) items }
    ensures answered { (opened : Opened) (size : ℕ) (items : List Item) (number : ℕ) → IsSound sql_meaning opened → AreTold items → answers_among number (lines_over opened size items) ≡ count_by (is_item number) items }
{}

/// Such a run keeps what the models of transactions promise, after any number of turns, where no constraint was violated when it
/// began. Definitions may set the model, and each transaction that ended has what the one promises that it ran under.
///
/// Under LOCKS, and under MVLOCKS where it may write, a transaction at REPEATABLE READ or SERIALIZABLE answers as if it ran alone on
/// the commits just before its end (`serial`), and where it was committed the next state is what its statements make of the state
/// before, alone there (`in_order`). A read-only one under MVLOCKS, and one at REPEATABLE READ or SERIALIZABLE under MVCC, answers as
/// if it ran alone on the commits before its start, and changes the same (`snapshot`). Such a one under MVCC puts or deletes no
/// committed row that a commit between its start and its end puts or deletes (`first`).
///
/// Under each model a commit is the changes of one transaction or a definition (`committed`, `made_by`), and in the state after each
/// number of commits every constraint holds, and each row fits its columns (`valid`).
pub fn runs_of_sql_keep_their_models()
    ensures serial { (opened : Opened) (size : ℕ) (items : List Item) (n : ℕ) → IsSound sql_meaning opened → EachEnded (history_over opened size items n) (IsSerial (language_over opened size) opened.database) }
    ensures in_order { (opened : Opened) (size : ℕ) (items : List Item) (n : ℕ) → IsSound sql_meaning opened → EachEnded (history_over opened size items n) (IsInOrder (language_over opened size) opened.database) }
    ensures committed { (opened : Opened) (size : ℕ) (items : List Item) (n : ℕ) → IsSound sql_meaning opened → EachEnded (history_over opened size items n) IsCommitted }
    ensures made_by { (opened : Opened) (size : ℕ) (items : List Item) (n : ℕ) → IsSound sql_meaning opened → AreMade (history_over opened size items n).commits (history_over opened size items n).ended }
    ensures snapshot { (opened : Opened) (size : ℕ) (items : List Item) (n : ℕ) → IsSound sql_meaning opened → EachEnded (history_over opened size items n) (IsSnapshot (language_over opened size) opened.database) }
    ensures first { (opened : Opened) (size : ℕ) (items : List Item) (n : ℕ) → IsSound sql_meaning opened → EachEnded (history_over opened size items n) IsFirst }
    ensures valid { (opened : Opened) (size : ℕ) (items : List Item) (n k : ℕ) → IsSound sql_meaning opened → is_valid (state opened.database (history_over opened size items n).commits k) ≡ true }
{}
