// Rows as they are before a statement.
ghost use Rattle.std.specs.Prelude.{◌≡◌, map, All, Contains, IfOk, IfSome};
ghost use Rattle.std.specs.Option.{option_copied};
ghost use Rattle.hs_actions.specs.Work.{was};
ghost use Rattle.hs_changes.specs.Settings.{Maps};
ghost use Rattle.hs_cascade.specs.Working.{numbers_with};

use hs_base::{NoMemory, RowName, RowNos, TableNo};
use hs_values::Row;

/// The rows of tables as they are before a statement.
pub trait RowsBefore {
    /// The rows of each table, by the tables' numbers.
    ghost maps: { Self → Maps };

    /// The values of a row: None exactly where it isn't there.
    fn row(&self, name: RowName) -> Option<&Row>
        ensures { option_copied result ≡ was (maps self.now) name };

    /// The numbers of the rows of a table that have this key in these columns, in ascending order. A key with a NULL is no
    /// key. An `Err` is want of memory.
    fn rows_with(&self, table: TableNo, columns: &[u32], key: &Row) -> Result<RowNos, NoMemory>
        ensures { IfOk result (λ found. map (λ r. r.0) found ≡ numbers_with columns.now key.now (maps self.now table.0)) };

    /// The columns of the first index of a table all of whose columns are among these, in the index's order: with a key in
    /// them `rows_with` needn't look at all rows. Takes no memory.
    fn index_among(&self, table: TableNo, columns: &[u32]) -> Option<&[u32]>
        ensures { IfSome result (λ found. All (Contains columns.now) found.now) };
}
