// The value that a literal behind DEFAULT gives a column.
ghost use Rattle.std.specs.Prelude.{◌≡◌, IfOk};
ghost use Rattle.hs_elements.specs.Defaults as spec;

use hs_ast::{Literal, Number, Word};
use hs_base::NoMemory;
use hs_temporal::{read_date, read_stamp};
use hs_values::{Chars, Dec, SqlType, Value, assign};
use std::alloc::Global;

fn of_number(data_type: &SqlType, number: Number) -> Option<Value>
    ensures { result ≡ spec.of_number data_type.now number.units number.scale }
{
    match data_type {
        SqlType::Bool | SqlType::Date | SqlType::Stamp | SqlType::Varchar { .. } => None,
        _ => {
            let value = Value::Dec(Dec {
                units: number.units,
                scale: number.scale,
            });
            assign(value, data_type).ok()
        }
    }
}

fn day(text: &Word) -> Option<Value>
    ensures { result ≡ spec.of_date SqlType.Date text.now }
{
    match read_date(text.as_str()) {
        Ok(day) => Some(Value::Day(day)),
        Err(_) => None,
    }
}

fn moment(text: &Word) -> Option<Value>
    ensures { result ≡ spec.of_timestamp SqlType.Stamp text.now }
{
    match read_stamp(text.as_str()) {
        Ok(micros) => Some(Value::Micros(micros)),
        Err(_) => None,
    }
}

fn of_text(alloc: Global, data_type: &SqlType, text: &Word) -> Result<Option<Value>, NoMemory>
    ensures { IfOk result (λ value. value ≡ spec.of_text data_type.now text.now) }
{
    match data_type {
        SqlType::Varchar { .. } => {
            let value = Value::Text(Chars::from_text(alloc, text.as_str())?);
            Ok(assign(value, data_type).ok())
        }
        SqlType::Date => Ok(day(text)),
        SqlType::Stamp => Ok(moment(text)),
        _ => Ok(None),
    }
}

/// The value that a literal behind DEFAULT gives a column of a type: NULL for NULL, a number cut to the column's scale, a
/// text also for a date or a timestamp. None exactly where it can't be assigned to the column, be it for its kind,
/// its size, its length, or as it is no date. An `Err` is want of memory.
pub fn default_value(
    alloc: Global,
    data_type: &SqlType,
    literal: &Literal,
) -> Result<Option<Value>, NoMemory>
    ensures { IfOk result (λ value. value ≡ spec.default_of data_type.now literal.now) }
{
    match literal {
        Literal::Null => Ok(Some(Value::Null)),
        Literal::Boolean(b) => Ok(match data_type {
            SqlType::Bool => Some(Value::Bool(*b)),
            _ => None,
        }),
        Literal::Number(number) => Ok(of_number(data_type, *number)),
        Literal::Text(text) => of_text(alloc, data_type, text),
        Literal::Date(text) => Ok(match data_type {
            SqlType::Date => day(text),
            _ => None,
        }),
        Literal::Timestamp(text) => Ok(match data_type {
            SqlType::Stamp => moment(text),
            _ => None,
        }),
    }
}
