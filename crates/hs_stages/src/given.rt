// Values at the kinds of their columns.
ghost use Rattle.std.specs.Prelude.{◌≡◌};
ghost use Rattle.hs_answer.specs.Bodies.{widened};

use hs_expression::given_at;
use hs_plan::Kind;
use hs_values::{EvalFault, Row, Value};

/// The values of a row, each at the kind of its column, of which there are as many. A fault is that of the first value that
/// has one: `Range`, where a number at that scale has more than 38 digits, or no number has that scale. Takes no memory.
pub fn given_row(kinds: &[Kind], row: Row) -> Result<Row, EvalFault>
    ensures { result ≡ widened kinds.now row }
{
    let mut values = row.into_vec();
    values.truncate(kinds.len());
    for i in 0..values.len() {
        let value = std::mem::replace(&mut values[i], Value::Null);
        values[i] = given_at(kinds[i], value)?;
    }
    Ok(Row::from_vec(values))
}
