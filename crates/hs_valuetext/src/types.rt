// Types as they are written.
ghost use Rattle.std.specs.Prelude.{◌≡◌, ◌++◌, OnOk, decimal};
ghost use Rattle.hs_valuetext.specs.Types.{type_text};

use hs_base::NoMemory;
use hs_values::{Chars, SqlType};
use itoa::Buffer;

fn push_number(number: u16, out: &mut Chars) -> Result<(), NoMemory>
    ensures { OnOk result (out.new ≡ out.old ++ decimal number) }
{
    Ok(out.push_text(Buffer::new().format(number))?)
}

/// Adds a type's text, a DECIMAL's always with its precision and its scale. An `Err` is want of memory, and then a part of
/// the text may be there.
pub fn print_type(sql_type: &SqlType, out: &mut Chars) -> Result<(), NoMemory>
    ensures { OnOk result (out.new ≡ out.old ++ type_text sql_type.now) }
{
    match sql_type {
        SqlType::Small => Ok(out.push_text("SMALLINT")?),
        SqlType::Integer => Ok(out.push_text("INTEGER")?),
        SqlType::Big => Ok(out.push_text("BIGINT")?),
        SqlType::Decimal { precision, scale } => {
            out.push_text("DECIMAL(")?;
            push_number(u16::from(*precision), out)?;
            out.push_text(",")?;
            push_number(u16::from(*scale), out)?;
            Ok(out.push_text(")")?)
        }
        SqlType::Varchar { max } => {
            out.push_text("VARCHAR(")?;
            push_number(*max, out)?;
            Ok(out.push_text(")")?)
        }
        SqlType::Bool => Ok(out.push_text("BOOLEAN")?),
        SqlType::Date => Ok(out.push_text("DATE")?),
        SqlType::Stamp => Ok(out.push_text("TIMESTAMP")?),
    }
}
