// What the conjuncts of a condition ask of columns.
ghost use Rattle.std.specs.Prelude.{◌≡◌, IfOk, IfSome, OnOk};
ghost use Rattle.hs_lookups.specs.Conjuncts.{equality, own, Gives, IsEquality, Needs, TakesIn};
ghost use Rattle.hs_lookups.specs.Asked.{has_value};

use crate::equalities::Equalities;
use crate::negative::negative_of;
use crate::operators::{is_and, is_equality, is_minus};
use hs_plan::{Expr, Reading};
use hs_values::Value;
use std::alloc::AllocError;

/// The column of the row itself that an expression is.
pub(crate) fn own_column(e: &Expr) -> Option<u32>
    ensures { IfSome result (λ at. e.now ≡ own at) }
{
    match e {
        Expr::Column { outward: 0, at } => Some(*at),
        _ => None,
    }
}

// The value of a literal, with a minus or without, or of a text that is read.
fn known_value(e: &Expr) -> Result<Option<Value>, AllocError>
    ensures { IfOk result (λ found. IfSome found (Gives e.now)) }
{
    match e {
        Expr::Literal(value) => Ok(Some(value.copy()?)),
        Expr::ReadText {
            reading: Reading::Day(day),
            ..
        } => Ok(Some(Value::Day(*day))),
        Expr::ReadText {
            reading: Reading::Micros(micros),
            ..
        } => Ok(Some(Value::Micros(*micros))),
        Expr::Unary(operator, a) if is_minus(*operator) => match negative_of(a.get()) {
            Some(n) => Ok(Some(Value::Int(n))),
            None => Ok(None),
        },
        _ => Ok(None),
    }
}

// A column, and the value that is known of the other side.
fn column_with(column: &Expr, other: &Expr) -> Result<Option<(u32, Value)>, AllocError>
    ensures { IfOk result (λ found. IfSome found (λ one. IsEquality column.now other.now one.0 one.1)) }
{
    let Some(at) = own_column(column) else {
        return Ok(None);
    };
    match known_value(other)? {
        Some(value) => Ok(Some((at, value))),
        None => Ok(None),
    }
}

// The column that an equality asks to have a value, with it.
fn asked(a: &Expr, b: &Expr) -> Result<Option<(u32, Value)>, AllocError>
    ensures { IfOk result (λ found. IfSome found (λ one. Needs (equality a.now b.now) (has_value one.0 one.1))) }
{
    match column_with(a, b)? {
        Some(one) => Ok(Some(one)),
        None => column_with(b, a),
    }
}

/// Takes in what the conjuncts of a condition ask columns to have. An `Err` is want of memory.
#[cycle(conjuncts)]
pub(crate) fn take_in(condition: &Expr, all: &mut Equalities) -> Result<(), AllocError>
    ensures { OnOk result (TakesIn condition.now all.old all.new) }
{
    match condition {
        Expr::Binary(operator, a, b) if is_and(*operator) => {
            take_in(a.get(), all)?;
            take_in(b.get(), all)
        }
        Expr::Binary(operator, a, b) if is_equality(*operator) => {
            match asked(a.get(), b.get())? {
                Some((column, value)) => all.push(column, value),
                None => Ok(()),
            }
        }
        _ => Ok(()),
    }
}
