// MIN and MAX.
ghost use Rattle.std.specs.Prelude.{◌≡◌};
ghost use Rattle.std.specs.Ordering.{is_lt, is_gt};
ghost use Rattle.hs_values.specs.Order.{seen, order_of};
ghost use Rattle.hs_expression.specs.Aggregates as spec;

use crate::is_null;
use hs_values::{Value, ValueRef, order};

/// Whether a value is to be kept in place of the least one so far.
fn is_lower(a: ValueRef<'_>, least: ValueRef<'_>) -> bool
    ensures { result ≡ spec.is_better is_lt (seen least.entry) (seen a.entry) }
{
    is_null(least) || !is_null(a) && order(a, least).is_lt()
}

/// Whether a value is to be kept in place of the greatest one so far.
fn is_higher(a: ValueRef<'_>, greatest: ValueRef<'_>) -> bool
    ensures { result ≡ spec.is_better is_gt (seen greatest.entry) (seen a.entry) }
{
    is_null(greatest) || !is_null(a) && order(a, greatest).is_gt()
}

/// MIN.
pub(crate) fn least(values: &[Value]) -> ValueRef<'_>
    ensures { seen result ≡ spec.least_of values.now }
{
    let mut least = ValueRef::Null;
    for a in values {
        if is_lower(a.as_value_ref(), least) {
            least = a.as_value_ref();
        }
    }
    least
}

/// MAX.
pub(crate) fn greatest(values: &[Value]) -> ValueRef<'_>
    ensures { seen result ≡ spec.greatest_of values.now }
{
    let mut greatest = ValueRef::Null;
    for a in values {
        if is_higher(a.as_value_ref(), greatest) {
            greatest = a.as_value_ref();
        }
    }
    greatest
}
