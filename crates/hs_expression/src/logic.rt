// Three-valued logic and comparison.
ghost use Rattle.std.specs.Prelude.{◌≡◌};
ghost use Rattle.hs_values.specs.Order.{seen};
ghost use Rattle.hs_expression.specs.Logic as spec;

use hs_values::{Value, ValueRef, cmp};
use std::cmp::Ordering;

/// Whether a value is NULL.
pub fn is_null(a: ValueRef<'_>) -> bool
    ensures { result ≡ spec.is_null (seen a.entry) }
{
    matches!(&a, ValueRef::Null)
}

/// Whether a value is TRUE, which neither FALSE nor NULL is.
pub fn is_true(a: ValueRef<'_>) -> bool
    ensures { result ≡ spec.is_true (seen a.entry) }
{
    match a {
        ValueRef::Bool(b) => b,
        _ => false,
    }
}

/// NOT.
pub(crate) fn negation(a: ValueRef<'_>) -> Value
    ensures { result ≡ spec.negation (seen a.entry) }
{
    match a {
        ValueRef::Bool(b) => Value::Bool(!b),
        _ => Value::Null,
    }
}

/// AND: FALSE where one of both is, TRUE where both are, else NULL.
pub(crate) fn conjunction(a: ValueRef<'_>, b: ValueRef<'_>) -> Value
    ensures { result ≡ spec.conjunction (seen a.entry) (seen b.entry) }
{
    match (a, b) {
        (ValueRef::Bool(false), _) | (_, ValueRef::Bool(false)) => Value::Bool(false),
        (ValueRef::Bool(true), ValueRef::Bool(true)) => Value::Bool(true),
        _ => Value::Null,
    }
}

/// OR: TRUE where one of both is, FALSE where both are, else NULL.
pub fn disjunction(a: ValueRef<'_>, b: ValueRef<'_>) -> Value
    ensures { result ≡ spec.disjunction (seen a.entry) (seen b.entry) }
{
    match (a, b) {
        (ValueRef::Bool(true), _) | (_, ValueRef::Bool(true)) => Value::Bool(true),
        (ValueRef::Bool(false), ValueRef::Bool(false)) => Value::Bool(false),
        _ => Value::Null,
    }
}

/// What a comparison asks of the order of two values.
#[derive(Clone, Copy)]
pub(crate) enum Comparison {
    Equal,
    NotEqual,
    Less,
    LessOrEqual,
    Greater,
    GreaterOrEqual,
}

impl Comparison {
    /// Whether it holds in this order.
    fn holds(self, order: Ordering) -> bool
        ensures { result ≡ spec.holds self order }
    {
        match self {
            Comparison::Equal => order.is_eq(),
            Comparison::NotEqual => order.is_ne(),
            Comparison::Less => order.is_lt(),
            Comparison::LessOrEqual => order.is_le(),
            Comparison::Greater => order.is_gt(),
            Comparison::GreaterOrEqual => order.is_ge(),
        }
    }

    /// Whether it holds of two values: NULL where one of them is NULL.
    pub(crate) fn value(self, a: ValueRef<'_>, b: ValueRef<'_>) -> Value
        ensures { result ≡ spec.compared self (seen a.entry) (seen b.entry) }
    {
        match cmp(a, b) {
            Some(order) => Value::Bool(self.holds(order)),
            None => Value::Null,
        }
    }
}
