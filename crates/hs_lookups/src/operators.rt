// Operators that have a value for all operands, and no fault.
ghost use Rattle.std.specs.Prelude.{◌≡◌, IsTrue};
ghost use Rattle.hs_ast.specs.declared.expression.BinaryOperator.TheVariants as o;
ghost use Rattle.hs_plan.specs.declared.operator.Binary.TheVariants as b;
ghost use Rattle.hs_plan.specs.declared.operator.Unary.TheVariants as u;
ghost use Rattle.hs_lookups.specs.Operators as spec;

use hs_ast::BinaryOperator;
use hs_plan::{Binary, Reading, Ternary, Unary};

/// Whether a literal text can be read as what it is compared as.
pub(crate) fn is_readable(reading: Option<Reading>) -> bool
    ensures { result ≡ spec.is_readable reading }
{
    match reading {
        None | Some(Reading::Day(_)) | Some(Reading::Micros(_)) => true,
        Some(Reading::BadDate) | Some(Reading::BadTimestamp) => false,
    }
}

/// Whether an operation on one operand has no fault.
pub(crate) fn one_is_sure(operator: Unary) -> bool
    ensures { result ≡ spec.one_is_sure operator }
{
    match operator {
        Unary::Plus
        | Unary::Not
        | Unary::IsNull
        | Unary::IsNotNull
        | Unary::Upper
        | Unary::Lower
        | Unary::CharLength
        | Unary::Trim(_) => true,
        Unary::Minus | Unary::Cast(_) | Unary::Abs | Unary::Extract(_) | Unary::Interval { .. } =>
            false,
    }
}

/// Whether an operation on two operands has no fault.
pub(crate) fn two_are_sure(operator: Binary) -> bool
    ensures { result ≡ spec.two_are_sure operator }
{
    match operator {
        Binary::Operator(operator) => is_no_reckoning(operator),
        Binary::NullIf { reading } => is_readable(reading),
        Binary::Like { .. } | Binary::SubstringFrom => true,
        Binary::Mod | Binary::TrimOf(_) => false,
    }
}

// Whether it is none of the four that reckon with numbers.
fn is_no_reckoning(operator: BinaryOperator) -> bool
    ensures { result ≡ spec.is_no_reckoning operator }
{
    match operator {
        BinaryOperator::Add
        | BinaryOperator::Subtract
        | BinaryOperator::Multiply
        | BinaryOperator::Divide => false,
        BinaryOperator::Or
        | BinaryOperator::And
        | BinaryOperator::Equal
        | BinaryOperator::NotEqual
        | BinaryOperator::Less
        | BinaryOperator::LessOrEqual
        | BinaryOperator::Greater
        | BinaryOperator::GreaterOrEqual
        | BinaryOperator::Concatenate => true,
    }
}

pub(crate) fn is_minus(operator: Unary) -> bool
    ensures { IsTrue result → operator ≡ u.Minus }
{
    matches!(operator, Unary::Minus)
}

pub(crate) fn is_and(operator: Binary) -> bool
    ensures { IsTrue result → operator ≡ b.Operator o.And }
{
    matches!(operator, Binary::Operator(BinaryOperator::And))
}

pub(crate) fn is_equality(operator: Binary) -> bool
    ensures { IsTrue result → operator ≡ b.Operator o.Equal }
{
    matches!(operator, Binary::Operator(BinaryOperator::Equal))
}

/// Whether an operation on three operands has no fault.
pub(crate) fn three_are_sure(operator: Ternary) -> bool
    ensures { result ≡ spec.three_are_sure operator }
{
    match operator {
        Ternary::Between { low, high, .. } => is_readable(low) && is_readable(high),
        Ternary::SubstringFor => true,
    }
}
