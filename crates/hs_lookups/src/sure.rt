// Expressions that have no fault.
ghost use Rattle.std.specs.Prelude.{IsTrue};
ghost use Rattle.hs_lookups.specs.Sure.{AreSure, IsSure};

use crate::negative::is_sure_with_minus;
use crate::operators::{is_minus, is_readable, one_is_sure, three_are_sure, two_are_sure};
use hs_plan::{Expr, ListItem};

/// Whether it is sure that an expression has no fault, wherever it stands and whatever rows the tables have. It isn't where
/// there is a subquery, and where numbers are reckoned with. Takes no memory.
#[cycle(sure)]
pub(crate) fn is_sure(e: &Expr) -> bool
    ensures { IsTrue result → IsSure e.now }
{
    match e {
        Expr::Literal(_) | Expr::Column { .. } => true,
        Expr::ReadText { reading, .. } => is_readable(Some(*reading)),
        Expr::Unary(operator, a) if is_minus(*operator) => is_sure_with_minus(a.get()),
        Expr::Unary(operator, a) => one_is_sure(*operator) && is_sure(a.get()),
        Expr::Binary(operator, a, b) => {
            two_are_sure(*operator) && is_sure(a.get()) && is_sure(b.get())
        }
        Expr::Ternary(operator, a, b, c) => {
            three_are_sure(*operator) && is_sure(a.get()) && is_sure(b.get()) && is_sure(c.get())
        }
        Expr::InList { operand, list, .. } => {
            is_sure(operand.get()) && are_sure(list.as_slice())
        }
        _ => false,
    }
}

// Whether that is sure of each value of a list, and that the operand can be read as what it is compared as beside it.
#[cycle(sure)]
fn are_sure(list: &[ListItem]) -> bool
    ensures { IsTrue result → AreSure list.now }
{
    for item in list {
        if !is_readable(item.reading) || !is_sure(&item.value) {
            return false;
        }
    }
    true
}
