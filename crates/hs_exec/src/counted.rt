// Rows of which the looks are counted.
use hs_base::{NoMemory, RowNo, RowNos, Steps, TableNo};
use hs_expression::RowRef;
use hs_rel::EvalStop;
use hs_rows::Rows;
use hs_values::Row;

/// Rows, and a count of the looks at them.
#[derive(Drop)]
pub(crate) struct Counted<'a, R, L> {
    pub(crate) rows: &'a mut R,
    pub(crate) steps: &'a mut Steps<L>,
}

impl<R: Rows, L> Rows for Counted<'_, R, L> {
    ghost use Rattle.std.specs.Prelude.{◌∷◌};

    ghost ready = { λ s. R.ready s.rows.now };

    ghost tells = { λ s. R.tells s.rows.now };

    ghost tables = { λ s. R.tables s.rows.now };

    ghost brought = { λ s. R.brought s.rows.now };

    ghost disk_faults = { λ s. R.disk_faults s.rows.now };

    ghost is_no_page = { λ s. R.is_no_page s.rows.now };

    ghost borrows = { λ s. s.rows.ghost_name ∷ s.steps.ghost_name ∷ R.borrows s.rows.now };

    ghost looked = { λ stop a b. R.looked stop a.rows.now b.rows.now };

    ghost not_looked = { λ a. R.not_looked a.rows.now };

    ghost looked_on = { λ stop a b c. R.looked_on stop a.rows.now b.rows.now c.rows.now };

    ghost tells_on = { λ a b. R.tells_on a.rows.now b.rows.now };

    fn next_row(&self, table: TableNo, after: Option<RowNo>) -> Option<RowNo> {
        self.rows.next_row(table, after)
    }

    fn bring(&mut self, table: TableNo, row: RowNo) -> Result<bool, EvalStop> {
        let is_there = self.rows.bring(table, row)?;
        if is_there {
            self.steps.tick();
        }
        Ok(is_there)
    }

    fn look(&self, table: TableNo, row: RowNo) -> RowRef<'_> {
        self.rows.look(table, row)
    }

    fn index_among(&self, table: TableNo, columns: &[u32]) -> Option<&[u32]> {
        self.rows.index_among(table, columns)
    }

    fn rows_with(&self, table: TableNo, columns: &[u32], key: &Row) -> Result<RowNos, NoMemory> {
        self.rows.rows_with(table, columns, key)
    }
}
