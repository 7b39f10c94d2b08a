// The rows around an expression.
ghost use Rattle.std.specs.Prelude.{◌≡◌};
ghost use Rattle.hs_values.specs.Order.{seen};
ghost use Rattle.hs_expression.specs.Surroundings.{rows_around, column, outside};

use crate::row_ref::RowRef;
use hs_values::ValueRef;

/// The rows of the SELECTs around an expression, from the inside outward.
#[derive(Clone, Copy)]
pub enum Around<'a> {
    /// There is no SELECT around.
    Nothing,
    /// The row of the innermost SELECT, and those around it.
    Row(RowRef<'a>, &'a Around<'a>),
}

impl Around<'_> {
    /// The value at a place of the row that is so many SELECTs outward; NULL where there is none. Takes no memory.
    pub fn column(&self, outward: u32, at: u32) -> ValueRef<'_>
        ensures { seen result ≡ column (rows_around self.now) outward at }
    {
        match self {
            Around::Nothing => ValueRef::Null,
            Around::Row(row, outer) => {
                if outward == 0 {
                    row.field(at)
                } else {
                    outer.column(outward - 1, at)
                }
            }
        }
    }

    /// The rows around the innermost SELECT.
    pub fn outside(&self) -> &Around<'_>
        ensures { rows_around result.now ≡ outside (rows_around self.now) }
    {
        match self {
            Around::Nothing => self,
            Around::Row(_, outer) => outer,
        }
    }
}
