// The types of SQL, and which values are theirs.
ghost use Rattle.std.specs.Prelude.{◌≡◌, ℤ, nat_le, length};
ghost use Rattle.std.specs.Str.{chars};
ghost use Rattle.hs_values.specs.Order.{seen};
ghost use Rattle.hs_values.specs.SqlType.{fits_of, has_digits, row_fits};

use crate::decimal::{MOST_DIGITS, ten_to};
use crate::value::{Dec, Value, ValueRef};

/// The day 0001-01-01, and the day 9999-12-31, counted from 1970-01-01.
const FIRST_DAY: i32 = -719_162;

const LAST_DAY: i32 = 2_932_896;

/// The first and the last microsecond of these years, counted from 1970-01-01 00:00:00.
const FIRST_MICRO: i64 = -62_135_596_800_000_000;

const LAST_MICRO: i64 = 253_402_300_799_999_999;

/// The type of a column or an expression.
#[derive(Clone, Copy, Debug, PartialEq, Eq)]
pub enum SqlType {
    /// SMALLINT: whole numbers of 16 bits.
    Small,
    /// INTEGER: whole numbers of 32 bits.
    Integer,
    /// BIGINT: whole numbers of 64 bits.
    Big,
    /// DECIMAL: numbers of at most `precision` digits, `scale` of them behind the point.
    Decimal { precision: u8, scale: u8 },
    /// VARCHAR: texts of at most `max` characters.
    Varchar { max: u16 },
    /// BOOLEAN.
    Bool,
    /// DATE: days of the years 0001 to 9999.
    Date,
    /// TIMESTAMP: microseconds of the years 0001 to 9999, without a time zone.
    Stamp,
}

/// Whether a whole number is one of the type's.
fn has_whole(t: &SqlType, n: i64) -> bool
    ensures { result ≡ fits_of t.now (Value.Int n) }
{
    match t {
        SqlType::Small => i16::try_from(n).is_ok(),
        SqlType::Integer => i32::try_from(n).is_ok(),
        SqlType::Big => true,
        _ => false,
    }
}

/// Whether a decimal has the scale, at most so many digits, and at most 38 in any case.
fn has_digits(precision: u8, scale: u8, d: Dec) -> bool
    ensures { result ≡ has_digits precision scale d }
{
    d.scale == scale
        && scale <= MOST_DIGITS
        && d.units.unsigned_abs() < ten_to(precision.min(MOST_DIGITS)).unsigned_abs()
}

#[tactic(auto, using(std::proofs::lemmas::Str::chars_from_encodes))]
/// How many characters a text has.
fn characters(text: &str) -> usize
    ensures { result ≡ length (chars text.now) }
{
    text.chars().count()
}

/// Whether a text has at most so many characters. One of at most as many bytes has, and isn't counted.
fn has_characters(text: &str, most: u16) -> bool
    ensures { result ≡ nat_le (length (chars text.now)) most }
{
    let most = usize::from(most);
    text.len() <= most || characters(text) <= most
}

impl ValueRef<'_> {
    /// Whether this value is one of the type's. NULL is one of every type's. A whole number fits SMALLINT,
    /// INTEGER and BIGINT by their 16, 32 and 64 bits; a decimal fits a DECIMAL of its scale that has as
    /// many digits; a text fits a VARCHAR that has as many characters (not bytes); a date and a timestamp
    /// are of the years 0001 to 9999. No value fits a type of another kind. Takes no memory.
    pub fn fits(self, t: &SqlType) -> bool
        ensures { result ≡ fits_of t.now (seen self.entry) }
    {
        match (t, self) {
            (_, ValueRef::Null) => true,
            (_, ValueRef::Int(n)) => has_whole(t, n),
            (SqlType::Decimal { precision, scale }, ValueRef::Dec(d)) => {
                has_digits(*precision, *scale, d)
            }
            (SqlType::Varchar { max }, ValueRef::Text(text)) => has_characters(text, *max),
            (SqlType::Bool, ValueRef::Bool(_)) => true,
            (SqlType::Date, ValueRef::Day(day)) => FIRST_DAY <= day && day <= LAST_DAY,
            (SqlType::Stamp, ValueRef::Micros(micros)) => {
                FIRST_MICRO <= micros && micros <= LAST_MICRO
            }
            _ => false,
        }
    }
}

/// Whether a value is one of the type's, as [`ValueRef::fits`] has it. Takes no memory.
pub fn fits(t: &SqlType, v: &Value) -> bool
    ensures { result ≡ fits_of t.now v.now }
{
    v.as_value_ref().fits(t)
}

/// Whether a row has as many values as there are types, and each value is one of its own type's. Takes no
/// memory.
pub fn fits_row(types: &[SqlType], row: &[Value]) -> bool
    ensures { result ≡ row_fits types.now row.now }
{
    if types.len() != row.len() {
        return false;
    }
    for (t, v) in types.iter().zip(row) {
        if !fits(t, v) {
            return false;
        }
    }
    true
}
