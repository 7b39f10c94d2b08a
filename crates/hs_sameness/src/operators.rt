// Whether two operators are the same.
ghost use Rattle.std.specs.Prelude.{◌≡◌, ◌↔◌, IsTrue};

use crate::values::{same_readings, same_type};
use hs_plan::{Binary, IntervalUnit, Sign, Ternary, Unary};

fn same_interval(a: (Sign, u64, IntervalUnit), b: (Sign, u64, IntervalUnit)) -> bool
    ensures { IsTrue result ↔ (a ≡ b) }
{
    a.0 == b.0 && a.1 == b.1 && a.2 == b.2
}

pub(crate) fn same_unary(a: Unary, b: Unary) -> bool
    ensures { IsTrue result ↔ (a ≡ b) }
{
    match (a, b) {
        (Unary::Plus, Unary::Plus)
        | (Unary::Minus, Unary::Minus)
        | (Unary::Not, Unary::Not)
        | (Unary::IsNull, Unary::IsNull)
        | (Unary::IsNotNull, Unary::IsNotNull)
        | (Unary::Abs, Unary::Abs)
        | (Unary::Upper, Unary::Upper)
        | (Unary::Lower, Unary::Lower)
        | (Unary::CharLength, Unary::CharLength) => true,
        (Unary::Cast(sql_type), Unary::Cast(other)) => same_type(sql_type, other),
        (Unary::Trim(form), Unary::Trim(other)) => form == other,
        (Unary::Extract(field), Unary::Extract(other)) => field == other,
        (
            Unary::Interval { sign, count, unit },
            Unary::Interval {
                sign: other_sign,
                count: other_count,
                unit: other_unit,
            },
        ) => same_interval((sign, count, unit), (other_sign, other_count, other_unit)),
        _ => false,
    }
}

fn same_escape(a: Option<char>, b: Option<char>) -> bool
    ensures { IsTrue result ↔ (a ≡ b) }
{
    match (a, b) {
        (Some(c), Some(other)) => c == other,
        (None, None) => true,
        _ => false,
    }
}

pub(crate) fn same_binary(a: Binary, b: Binary) -> bool
    ensures { IsTrue result ↔ (a ≡ b) }
{
    match (a, b) {
        (Binary::Operator(operator), Binary::Operator(other)) => operator == other,
        (Binary::Mod, Binary::Mod) | (Binary::SubstringFrom, Binary::SubstringFrom) => true,
        (Binary::NullIf { reading }, Binary::NullIf { reading: other }) => {
            same_readings(reading, other)
        }
        (
            Binary::Like { negated, escape },
            Binary::Like {
                negated: other_negated,
                escape: other,
            },
        ) => negated == other_negated && same_escape(escape, other),
        (Binary::TrimOf(form), Binary::TrimOf(other)) => form == other,
        _ => false,
    }
}

pub(crate) fn same_ternary(a: Ternary, b: Ternary) -> bool
    ensures { IsTrue result ↔ (a ≡ b) }
{
    match (a, b) {
        (
            Ternary::Between { negated, low, high },
            Ternary::Between {
                negated: other_negated,
                low: other_low,
                high: other_high,
            },
        ) => {
            negated == other_negated
                && same_readings(low, other_low)
                && same_readings(high, other_high)
        }
        (Ternary::SubstringFor, Ternary::SubstringFor) => true,
        _ => false,
    }
}
