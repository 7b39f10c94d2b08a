// Rows where they lie.
ghost use Rattle.std.specs.Prelude.{◌≡◌, slice_get};
ghost use Rattle.hs_values.specs.Order.{seen};
ghost use Rattle.hs_expression.specs.Surroundings.{or_null, row_seen};

use hs_values::{Row, ValueRef};

/// A row where it lies.
#[derive(Clone, Copy)]
pub enum RowRef<'a> {
    /// A row in memory.
    Held(&'a Row),
}

impl RowRef<'_> {
    /// The value of the column at this place, from 0; NULL where there is none. Takes no memory.
    pub fn field(&self, at: u32) -> ValueRef<'_>
        ensures { seen result ≡ or_null (slice_get (row_seen self.now) at) }
    {
        match self {
            RowRef::Held(row) => match row.as_slice().get(at as usize) {
                Some(value) => value.as_value_ref(),
                None => ValueRef::Null,
            },
        }
    }
}
