// Expressions without subqueries.
ghost use Rattle.std.specs.Prelude.{◌≡◌, map};
ghost use Rattle.hs_expression.specs.Plain as spec;

use hs_plan::{CaseArm, Expr, ListItem};

/// Whether an expression has no subquery. Takes no memory.
#[cycle(plain)]
pub fn is_plain(e: &Expr) -> bool
    ensures { result ≡ spec.is_plain e.now }
{
    match e {
        Expr::Literal(_)
        | Expr::ReadText { .. }
        | Expr::BadMoment { .. }
        | Expr::Column { .. }
        | Expr::CountRows => true,
        Expr::InQuery { .. } | Expr::Exists(_) | Expr::Subquery(_) => false,
        Expr::Unary(_, a) => is_plain(a.get()),
        Expr::Binary(_, a, b) => is_plain(a.get()) && is_plain(b.get()),
        Expr::Ternary(_, a, b, c) => { is_plain(a.get()) && is_plain(b.get()) && is_plain(c.get()) }
        Expr::InList { operand, list, .. } => {
            is_plain(operand.get()) && items_are_plain(list.as_slice())
        }
        Expr::Case {
            arms,
            otherwise,
            ..
        } => {
            arms_are_plain(arms.as_slice())
                && match otherwise {
                    Some(e) => is_plain(e.get()),
                    None => true,
                }
        }
        Expr::Coalesce { operands, .. } => are_plain(operands.as_slice()),
        Expr::Aggregate { operand, .. } => is_plain(operand.get()),
    }
}

#[cycle(plain)]
fn are_plain(all: &[Expr]) -> bool
    ensures { result ≡ spec.all (map spec.is_plain all.now) }
{
    for e in all {
        if !is_plain(e) {
            return false;
        }
    }
    true
}

#[cycle(plain)]
fn items_are_plain(list: &[ListItem]) -> bool
    ensures { result ≡ spec.all (map spec.item_is_plain list.now) }
{
    for item in list {
        if !is_plain(&item.value) {
            return false;
        }
    }
    true
}

#[cycle(plain)]
fn arms_are_plain(arms: &[CaseArm]) -> bool
    ensures { result ≡ spec.all (map spec.arm_is_plain arms.now) }
{
    for arm in arms {
        if !is_plain(&arm.test) || !is_plain(&arm.value) {
            return false;
        }
    }
    true
}
