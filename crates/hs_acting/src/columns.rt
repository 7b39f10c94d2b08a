// Rows with other values in some columns.
ghost use Rattle.std.specs.Prelude.{◌≡◌, slice_set};
ghost use Rattle.hs_actions.specs.Acting as spec;

use hs_values::{Row, Value};

/// The row with these values in these columns, which are places in it from 0, one after the other. A column that the
/// row hasn't is left out. Takes no memory.
pub fn with_columns(row: Row, columns: &[u32], values: Row) -> Row
    ensures { result ≡ spec.with_columns row columns.now values }
{
    let mut made = row.into_vec();
    let mut given = values.into_vec().into_iter();
    for column in columns {
        match given.next() {
            Some(value) => set_value(&mut made, *column, value),
            None => return Row::from_vec(made),
        }
    }
    Row::from_vec(made)
}

// Puts a value into a column, where there is one.
fn set_value(row: &mut Vec<Value>, column: u32, value: Value)
    ensures { row.new.items ≡ slice_set row.old.items column value }
{
    if let Some(place) = row.get_mut(column as usize) {
        *place = value;
    }
}
