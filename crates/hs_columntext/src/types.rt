// Types as they are read.
ghost use Rattle.std.specs.Prelude.{codes};
ghost use Rattle.hs_valuetext.specs.Finding.{Finds};
ghost use Rattle.hs_columntext.specs.Types.{IsTypeAt, IsWordAt, IsBehind};

use crate::numbers::read_bounded;
use hs_values::SqlType;
use hs_valuetext::behind;

/// A type whose text is a word alone, and what is behind it.
fn read_word(text: &str) -> Option<(SqlType, &str)>
    ensures { Finds (λ t. t) (IsWordAt text.now) result }
{
    if let Some(rest) = behind(text, "SMALLINT") {
        return Some((SqlType::Small, rest));
    }
    if let Some(rest) = behind(text, "INTEGER") {
        return Some((SqlType::Integer, rest));
    }
    if let Some(rest) = behind(text, "BIGINT") {
        return Some((SqlType::Big, rest));
    }
    if let Some(rest) = behind(text, "BOOLEAN") {
        return Some((SqlType::Bool, rest));
    }
    if let Some(rest) = behind(text, "DATE") {
        return Some((SqlType::Date, rest));
    }
    match behind(text, "TIMESTAMP") {
        Some(rest) => Some((SqlType::Stamp, rest)),
        None => None,
    }
}

/// A DECIMAL's digits and scale with their parenthesis, and what is behind it.
fn read_decimal(text: &str) -> Option<(SqlType, &str)>
    ensures { Finds (λ t. t) (IsBehind (codes "DECIMAL(") text.now) result }
{
    let (precision, scaled) = read_bounded(text, 1, 38, ',')?;
    let (scale, rest) = read_bounded(scaled, 0, precision, ')')?;
    let sql_type = SqlType::Decimal {
        precision: precision as u8,
        scale: scale as u8,
    };
    Some((sql_type, rest))
}

/// A VARCHAR's characters with their parenthesis, and what is behind it.
fn read_varchar(text: &str) -> Option<(SqlType, &str)>
    ensures { Finds (λ t. t) (IsBehind (codes "VARCHAR(") text.now) result }
{
    let (max, rest) = read_bounded(text, 1, 4_000, ')')?;
    Some((SqlType::Varchar { max }, rest))
}

/// The type with whose text another text begins, and what is behind it. None exactly where there is none: where it is written
/// otherwise, a DECIMAL has no digits or more than 38, or a greater scale than digits, or a VARCHAR has no characters or more
/// than 4,000. There is never more than one.
pub fn read_type(text: &str) -> Option<(SqlType, &str)>
    ensures { Finds (λ t. t) (IsTypeAt text.now) result }
{
    if let Some(inner) = behind(text, "DECIMAL(") {
        return read_decimal(inner);
    }
    match behind(text, "VARCHAR(") {
        Some(inner) => read_varchar(inner),
        None => read_word(text),
    }
}
