// What keeps rows of tables.
ghost use Rattle.std.specs.Prelude.{◌≡◌, ℕ, List, map, Option, Some, None, Ok, true, All, Contains, IfOk, IfSome};
ghost use Rattle.hs_changes.specs.Settings.{Maps};
ghost use Rattle.hs_expression.specs.Surroundings.{row_seen};
ghost use Rattle.hs_rel.specs.declared.stop.StopKind.{StopKind};
ghost use Rattle.hs_rel.specs.Outcome.{IsCaused, IsNoVerdict, stop_of};
ghost use Rattle.hs_rows.specs.Numbers.{IsBehind, has_row, next_in, numbers_with, row_in};

use hs_base::{NoMemory, RowNo, RowNos, TableNo};
use hs_expression::RowRef;
use hs_rel::EvalStop;
use hs_values::Row;

/// The rows of the tables of one state, as something keeps them, which may be a store that reads a file meanwhile.
pub trait Rows {
    /// What each call asks of it, and leaves.
    ghost ready: { Self → Type 0 };

    /// Contracts may speak of the rows.
    ghost tells: { Self → Type 0 };

    /// The rows of each table, by the tables' numbers. No call changes them.
    ghost tables: { Self → Maps };

    /// The row that was brought last, by its table's number and its own.
    ghost brought: { Self → Option (ℕ × ℕ) };

    /// How many calls of the disk failed so far.
    ghost disk_faults: { Self → ℕ };

    /// The numbers of pages that are told to be no page.
    ghost is_no_page: { Self → ℕ → Type 0 };

    /// The names of the borrows in it, which no call changes.
    ghost borrows: { Self → List ℕ };

    /// From the one to the other it was only looked at, and where it stopped, by the last call.
    ghost looked: { Option StopKind → Self → Self → Type 0 };

    /// The row of the table with the least number behind this one, or the first row; None exactly where there is
    /// none. Takes no memory.
    fn next_row(&self, table: TableNo, after: Option<RowNo>) -> Option<RowNo>
        requires { ready self.now }
        ensures row { tells self.now → result ≡ next_in (tables self.now table.0) after }
        ensures behind { IsBehind after result };

    /// Makes a row ready to be looked at, and answers whether it is there. An `Err` is a stop, or want of memory.
    fn bring(&mut self, table: TableNo, row: RowNo) -> Result<bool, EvalStop>
        requires { ready self.old }
        ensures found { tells self.old → IfOk result (λ is. is ≡ has_row (tables self.old table.0) row.0) }
        ensures brought { result ≡ Ok true → brought self.new ≡ Some (table.0, row.0) }
        ensures err { IsNoVerdict result }
        ensures ready { ready self.new }
        ensures tables { tables self.new ≡ tables self.old }
        ensures borrows { borrows self.new ≡ borrows self.old }
        ensures caused { IsCaused (stop_of result) (disk_faults self.old) (disk_faults self.new) (is_no_page self.new) }
        ensures looked { looked (stop_of result) self.old self.new };

    /// The row that was brought last. Takes no memory.
    fn look(&self, table: TableNo, row: RowNo) -> RowRef<'_>
        requires ready { ready self.now }
        requires brought { brought self.now ≡ Some (table.0, row.0) }
        ensures { tells self.now → row_in (tables self.now table.0) row.0 ≡ Some (row_seen result) };

    /// The columns of an index of the table that are all among these, in the index's order. Where there is one,
    /// `rows_with` of them looks at no other rows. Takes no memory.
    fn index_among(&self, table: TableNo, columns: &[u32]) -> Option<&[u32]>
        requires { ready self.now }
        ensures { IfSome result (λ found. All (Contains columns.now) found.now) };

    /// The numbers of the rows that have this key in these columns, in ascending order. A key with a NULL is no key.
    /// An `Err` is want of memory.
    fn rows_with(&self, table: TableNo, columns: &[u32], key: &Row) -> Result<RowNos, NoMemory>
        requires { ready self.now }
        ensures { tells self.now → IfOk result (λ found. map (λ r. r.0) found ≡ numbers_with columns.now key.now (tables self.now table.0)) };

    ghost not_looked: { (a : Self) → looked None a a };

    ghost looked_on: { (stop : Option StopKind) (a b c : Self) → looked None a b → looked stop b c → looked stop a c };

    ghost tells_on: { (a b : Self) → looked None a b → tells a → tells b };
}
