// Steps of evaluation that evaluate nothing themselves.
ghost use Rattle.std.specs.Prelude.{◌≡◌};
ghost use Rattle.hs_values.specs.Order.{seen};
ghost use Rattle.hs_expression.specs.Forms as spec;

use hs_ast::BinaryOperator;
use hs_expression::is_true;
use hs_plan::{Binary, Reading};
use hs_values::ValueRef;

/// Whether a value is FALSE.
pub(crate) fn is_false(a: ValueRef<'_>) -> bool
    ensures { result ≡ spec.is_false (seen a.entry) }
{
    match a {
        ValueRef::Bool(b) => !b,
        _ => false,
    }
}

/// Whether the first operand decides: FALSE in AND, TRUE in OR.
pub(crate) fn is_decided(operator: Binary, a: ValueRef<'_>) -> bool
    ensures { result ≡ spec.is_decided operator (seen a.entry) }
{
    match operator {
        Binary::Operator(BinaryOperator::And) => is_false(a),
        Binary::Operator(BinaryOperator::Or) => is_true(a),
        _ => false,
    }
}

/// What the first operand is read as.
pub(crate) fn reading_in(operator: Binary) -> Option<Reading>
    ensures { result ≡ spec.reading_in operator }
{
    match operator {
        Binary::NullIf { reading } => reading,
        _ => None,
    }
}
