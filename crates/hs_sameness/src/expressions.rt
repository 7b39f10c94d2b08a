// Whether two expressions are the same.
ghost use Rattle.hs_plan.specs.declared.expression.Expr.TheVariants as e;
ghost use Rattle.hs_sameness.specs.Same.{Tells, TellsRest};
ghost use Rattle.hs_sameness.specs.Plain.{are_plain, are_plain_arms, are_plain_items, is_plain, is_plain_arm, is_plain_item, is_plain_option};

use crate::operators::{same_binary, same_ternary, same_unary};
use crate::values::{same_reading, same_readings, same_value};
use hs_plan::{CaseArm, Expr, ListItem, Reading};
use hs_values::{Chars, Value};
use sqlite_items::Boxed;

/// Whether two expressions are the same, of which the first has no query and no aggregate: of one that has any it is told that they
/// aren't. Takes no memory.
#[cycle(sameness)]
pub fn is_same(a: &Expr, b: &Expr) -> bool
    ensures { Tells is_plain a.now b.now result }
{
    match a {
        Expr::Literal(value) => is_literal(value, b),
        Expr::ReadText { text, reading } => is_read_text(text, *reading, b),
        Expr::BadMoment { timestamp, text } => is_bad_moment(*timestamp, text, b),
        Expr::Column { outward, at } => is_column(*outward, *at, b),
        Expr::Unary(operator, x) => match b {
            Expr::Unary(other, y) => same_unary(*operator, *other) && is_same(x.get(), y.get()),
            _ => false,
        },
        Expr::Binary(operator, x, y) => match b {
            Expr::Binary(other, v, w) => {
                same_binary(*operator, *other)
                    && is_same(x.get(), v.get())
                    && is_same(y.get(), w.get())
            }
            _ => false,
        },
        Expr::Ternary(operator, x, y, z) => match b {
            Expr::Ternary(other, u, v, w) => {
                same_ternary(*operator, *other)
                    && is_same(x.get(), u.get())
                    && is_same(y.get(), v.get())
                    && is_same(z.get(), w.get())
            }
            _ => false,
        },
        Expr::InList {
            operand,
            negated,
            list,
        } => match b {
            Expr::InList {
                operand: other,
                negated: other_negated,
                list: others,
            } => {
                negated == other_negated
                    && is_same(operand.get(), other.get())
                    && are_items(list.as_slice(), others.as_slice())
            }
            _ => false,
        },
        Expr::Case {
            kind,
            arms,
            otherwise,
        } => match b {
            Expr::Case {
                kind: other_kind,
                arms: others,
                otherwise: other,
            } => {
                kind == other_kind
                    && are_arms(arms.as_slice(), others.as_slice())
                    && is_otherwise(otherwise, other)
            }
            _ => false,
        },
        Expr::Coalesce { kind, operands } => match b {
            Expr::Coalesce {
                kind: other,
                operands: others,
            } => kind == other && are_operands(operands.as_slice(), others.as_slice()),
            _ => false,
        },
        Expr::InQuery { .. }
        | Expr::Exists(_)
        | Expr::Subquery(_)
        | Expr::CountRows
        | Expr::Aggregate { .. } => false,
    }
}

// ---- without parts

fn is_literal(value: &Value, b: &Expr) -> bool
    ensures { Tells is_plain (e.Literal value.now) b.now result }
{
    match b {
        Expr::Literal(other) => same_value(value, other),
        _ => false,
    }
}

fn is_read_text(text: &Chars, reading: Reading, b: &Expr) -> bool
    ensures { Tells is_plain (e.ReadText text.now reading) b.now result }
{
    match b {
        Expr::ReadText {
            text: other_text,
            reading: other,
        } => text.as_str() == other_text.as_str() && same_reading(reading, *other),
        _ => false,
    }
}

fn is_bad_moment(timestamp: bool, text: &Chars, b: &Expr) -> bool
    ensures { Tells is_plain (e.BadMoment timestamp text.now) b.now result }
{
    match b {
        Expr::BadMoment {
            timestamp: other,
            text: other_text,
        } => timestamp == *other && text.as_str() == other_text.as_str(),
        _ => false,
    }
}

fn is_column(outward: u32, at: u32, b: &Expr) -> bool
    ensures { Tells is_plain (e.Column outward at) b.now result }
{
    match b {
        Expr::Column {
            outward: other_outward,
            at: other,
        } => outward == *other_outward && at == *other,
        _ => false,
    }
}

// ---- parts

/// Whether two values behind ELSE are the same, or neither is written.
#[cycle(sameness)]
fn is_otherwise(a: &Option<Boxed<Expr>>, b: &Option<Boxed<Expr>>) -> bool
    ensures { Tells is_plain_option a.now b.now result }
{
    match a {
        Some(x) => match b {
            Some(y) => is_same(x.get(), y.get()),
            None => false,
        },
        None => b.is_none(),
    }
}

/// What stands behind the first of some expressions, where that is this one.
#[cycle(sameness)]
fn behind_operand<'a>(x: &Expr, all: &'a [Expr]) -> Option<&'a [Expr]>
    ensures { TellsRest is_plain x.now all.now result }
{
    let (y, others) = all.split_first()?;
    if is_same(x, y) { Some(others) } else { None }
}

#[cycle(sameness)]
fn are_operands(a: &[Expr], b: &[Expr]) -> bool
    ensures { Tells are_plain a.now b.now result }
{
    let mut rest = b;
    for x in a {
        match behind_operand(x, rest) {
            Some(others) => rest = others,
            None => return false,
        }
    }
    rest.is_empty()
}

/// What stands behind the first of some values of IN, where that is this one.
#[cycle(sameness)]
fn behind_item<'a>(x: &ListItem, all: &'a [ListItem]) -> Option<&'a [ListItem]>
    ensures { TellsRest is_plain_item x.now all.now result }
{
    let (y, others) = all.split_first()?;
    if same_readings(x.reading, y.reading) && is_same(&x.value, &y.value) {
        Some(others)
    } else {
        None
    }
}

#[cycle(sameness)]
fn are_items(a: &[ListItem], b: &[ListItem]) -> bool
    ensures { Tells are_plain_items a.now b.now result }
{
    let mut rest = b;
    for x in a {
        match behind_item(x, rest) {
            Some(others) => rest = others,
            None => return false,
        }
    }
    rest.is_empty()
}

/// What stands behind the first of some arms of CASE, where that is this one.
#[cycle(sameness)]
fn behind_arm<'a>(x: &CaseArm, all: &'a [CaseArm]) -> Option<&'a [CaseArm]>
    ensures { TellsRest is_plain_arm x.now all.now result }
{
    let (y, others) = all.split_first()?;
    if is_same(&x.test, &y.test) && is_same(&x.value, &y.value) {
        Some(others)
    } else {
        None
    }
}

#[cycle(sameness)]
fn are_arms(a: &[CaseArm], b: &[CaseArm]) -> bool
    ensures { Tells are_plain_arms a.now b.now result }
{
    let mut rest = b;
    for x in a {
        match behind_arm(x, rest) {
            Some(others) => rest = others,
            None => return false,
        }
    }
    rest.is_empty()
}
