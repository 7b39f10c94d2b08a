// Operators and predicates.
ghost use Rattle.hs_typed.specs.Rules as spec;
ghost use Rattle.hs_typed.specs.Rules.{Gives};
ghost use Rattle.std.specs.Prelude.{◌≡◌};
ghost use Rattle.std.specs.Option.{option_map};

use crate::comparing::only_character;
use crate::typed::{RuleFault, Typed};
use hs_plan::{Binary, BinaryOperator, Expr, Kind, Ternary, Unary};
use sqlite_items::Boxed;
use std::alloc::Global;

/// What takes one operand: signs, NOT, IS NULL, CAST, functions of one operand, TRIM of spaces, EXTRACT and an
/// interval. `Types` where the operand isn't of a kind that it takes.
pub fn bind_unary(operator: Unary, a: Typed, alloc: Global) -> Result<Typed, RuleFault>
    ensures { Gives result (spec.unary_typed operator a) }
{
    let Some(kind) = operator.kind(a.kind) else {
        return Err(RuleFault::Types);
    };
    Ok(Typed {
        tree: Expr::Unary(operator, Boxed::new(alloc, a.tree)?),
        kind,
    })
}

/// An operation as it stands, no operand being read as anything else.
pub(crate) fn apply(operator: Binary, a: Typed, b: Typed, alloc: Global) -> Result<Typed, RuleFault>
    ensures { Gives result (spec.applied operator a b) }
{
    let Some(kind) = operator.kind(a.kind, b.kind) else {
        return Err(RuleFault::Types);
    };
    let (left, right) = (Boxed::new(alloc, a.tree)?, Boxed::new(alloc, b.tree)?);
    Ok(Typed {
        tree: Expr::Binary(operator, left, right),
        kind,
    })
}

fn is_comparison(operator: BinaryOperator) -> bool
    ensures { result ≡ spec.is_comparison operator }
{
    matches!(
        &operator,
        BinaryOperator::Equal
            | BinaryOperator::NotEqual
            | BinaryOperator::Less
            | BinaryOperator::LessOrEqual
            | BinaryOperator::Greater
            | BinaryOperator::GreaterOrEqual
    )
}

/// OR, AND, a comparison, a sum, a product or `||`. A literal text that is compared with a date or a timestamp is read
/// as one. `Types` where the operands aren't of kinds that it takes.
pub fn bind_binary(
    operator: BinaryOperator,
    a: Typed,
    b: Typed,
    alloc: Global,
) -> Result<Typed, RuleFault>
    ensures { Gives result (spec.binary_typed operator a b) }
{
    if !is_comparison(operator) {
        return apply(Binary::Operator(operator), a, b, alloc);
    }
    let (left, right) = (a.kind, b.kind);
    apply(
        Binary::Operator(operator),
        a.beside(right),
        b.beside(left),
        alloc,
    )
}

/// BETWEEN, which is two comparisons. `Types` where the operand can't be compared with both.
pub fn bind_between(
    negated: bool,
    a: Typed,
    low: Typed,
    high: Typed,
    alloc: Global,
) -> Result<Typed, RuleFault>
    ensures { Gives result (spec.between_typed negated a low high) }
{
    if !(a.goes_with(&low) && a.goes_with(&high)) {
        return Err(RuleFault::Types);
    }
    let operator = Ternary::Between {
        negated,
        low: a.reading_beside(low.kind),
        high: a.reading_beside(high.kind),
    };
    let kind = a.kind;
    let (low, high) = (low.beside(kind).tree, high.beside(kind).tree);
    let a = Boxed::new(alloc, a.tree)?;
    let (low, high) = (Boxed::new(alloc, low)?, Boxed::new(alloc, high)?);
    Ok(Typed {
        tree: Expr::Ternary(operator, a, low, high),
        kind: Kind::Boolean,
    })
}

/// LIKE with what is written behind ESCAPE. `Types` where an operand is no text, and where the escape hasn't just one
/// character.
pub fn bind_like(
    negated: bool,
    a: Typed,
    pattern: Typed,
    escape: Option<&str>,
    alloc: Global,
) -> Result<Typed, RuleFault>
    ensures { Gives result (spec.like_typed negated a pattern (option_map (λ text. text.now) escape.entry)) }
{
    let escape = match escape {
        None => None,
        Some(text) => match only_character(text) {
            Some(c) => Some(c),
            None => return Err(RuleFault::Types),
        },
    };
    apply(Binary::Like { negated, escape }, a, pattern, alloc)
}
