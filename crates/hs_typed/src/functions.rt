// Functions and aggregates.
ghost use Rattle.std.specs.Prelude.{◌≡◌};
ghost use Rattle.hs_typed.specs.Comparing as comparing;
ghost use Rattle.hs_typed.specs.Rules as spec;
ghost use Rattle.hs_typed.specs.Rules.{Gives};

use crate::comparing::{literal_text, only_character};
use crate::lists::bind_coalesce;
use crate::operators::{apply, bind_unary};
use crate::typed::{RuleFault, Typed};
use hs_ast::Function;
use hs_plan::{Aggregate, Binary, Expr, Kind, Ternary, TrimForm, Unary, aggregate_kind};
use sqlite_items::Boxed;
use std::alloc::Global;

/// The only one, if there is just one.
fn one_of(operands: Vec<Typed>) -> Option<Typed>
    ensures { result ≡ spec.only operands.items }
{
    let mut rest = operands;
    let Some(a) = rest.pop() else {
        return None;
    };
    if rest.is_empty() { Some(a) } else { None }
}

/// The two, if there are just two.
fn two_of(operands: Vec<Typed>) -> Option<(Typed, Typed)>
    ensures { result ≡ spec.both operands.items }
{
    let mut rest = operands;
    let Some(b) = rest.pop() else {
        return None;
    };
    match one_of(rest) {
        Some(a) => Some((a, b)),
        None => None,
    }
}

fn call_one(operator: Unary, operands: Vec<Typed>, alloc: Global) -> Result<Typed, RuleFault>
    ensures { Gives result (spec.of_one (spec.unary_typed operator) operands.items) }
{
    match one_of(operands) {
        Some(a) => bind_unary(operator, a, alloc),
        None => Err(RuleFault::Types),
    }
}

fn nullif(a: Typed, b: Typed, alloc: Global) -> Result<Typed, RuleFault>
    ensures { Gives result (spec.nullif_typed a b) }
{
    if !a.goes_with(&b) {
        return Err(RuleFault::Types);
    }
    let kind = a.kind;
    let reading = a.reading_beside(b.kind);
    let left = Boxed::new(alloc, a.tree)?;
    let right = Boxed::new(alloc, b.beside(kind).tree)?;
    Ok(Typed {
        tree: Expr::Binary(Binary::NullIf { reading }, left, right),
        kind,
    })
}

/// COALESCE, NULLIF, ABS, MOD, UPPER, LOWER or CHAR_LENGTH. `Types` where it has another number of operands than it
/// takes, and where they aren't of kinds that it takes.
pub fn bind_call(
    function: Function,
    operands: Vec<Typed>,
    alloc: Global,
) -> Result<Typed, RuleFault>
    ensures { Gives result (spec.call_typed function operands.items) }
{
    match function {
        Function::Coalesce => bind_coalesce(operands, alloc),
        Function::NullIf => match two_of(operands) {
            Some((a, b)) => nullif(a, b, alloc),
            None => Err(RuleFault::Types),
        },
        Function::Mod => match two_of(operands) {
            Some((a, b)) => apply(Binary::Mod, a, b, alloc),
            None => Err(RuleFault::Types),
        },
        Function::Abs => call_one(Unary::Abs, operands, alloc),
        Function::Upper => call_one(Unary::Upper, operands, alloc),
        Function::Lower => call_one(Unary::Lower, operands, alloc),
        Function::CharLength => call_one(Unary::CharLength, operands, alloc),
    }
}

/// SUBSTRING. `Types` where the first operand is no text, or another one no whole number.
pub fn bind_substring(
    a: Typed,
    start: Typed,
    count: Option<Typed>,
    alloc: Global,
) -> Result<Typed, RuleFault>
    ensures { Gives result (spec.substring_typed a start count) }
{
    let Some(count) = count else {
        return apply(Binary::SubstringFrom, a, start, alloc);
    };
    let operator = Ternary::SubstringFor;
    let Some(kind) = operator.kind(a.kind, start.kind, count.kind) else {
        return Err(RuleFault::Types);
    };
    let (a, start) = (Boxed::new(alloc, a.tree)?, Boxed::new(alloc, start.tree)?);
    let count = Boxed::new(alloc, count.tree)?;
    Ok(Typed {
        tree: Expr::Ternary(operator, a, start, count),
        kind,
    })
}

fn is_trimmed(character: &Expr) -> bool
    ensures { result ≡ spec.is_trimmed (comparing.literal_text character.now) }
{
    match literal_text(character) {
        None => true,
        Some(text) => only_character(text).is_some(),
    }
}

/// TRIM of a character, or of spaces where none is written. `Types` where an operand is no text, and where a literal
/// that is trimmed off hasn't just one character.
pub fn bind_trim(
    form: TrimForm,
    character: Option<Typed>,
    a: Typed,
    alloc: Global,
) -> Result<Typed, RuleFault>
    ensures { Gives result (spec.trim_typed form character a) }
{
    match character {
        None => bind_unary(Unary::Trim(form), a, alloc),
        Some(character) => {
            if !is_trimmed(&character.tree) {
                return Err(RuleFault::Types);
            }
            apply(Binary::TrimOf(form), character, a, alloc)
        }
    }
}

/// COUNT, SUM, AVG, MIN or MAX of an operand. `Types` where it isn't of a kind that the aggregate takes.
pub fn bind_aggregate(
    function: Aggregate,
    distinct: bool,
    a: Typed,
    alloc: Global,
) -> Result<Typed, RuleFault>
    ensures { Gives result (spec.aggregate_typed function distinct a) }
{
    let Some(kind) = aggregate_kind(function, a.kind) else {
        return Err(RuleFault::Types);
    };
    Ok(Typed {
        tree: Expr::Aggregate {
            function,
            distinct,
            operand: Boxed::new(alloc, a.tree)?,
        },
        kind,
    })
}

/// `COUNT(*)`
pub fn count_rows() -> Typed
    ensures { result ≡ spec.rows_typed }
{
    Typed {
        tree: Expr::CountRows,
        kind: Kind::Whole,
    }
}
