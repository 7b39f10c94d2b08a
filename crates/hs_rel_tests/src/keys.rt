// A condition on pairs of rows.
ghost use Rattle.std.specs.Prelude.{◌≡◌, ⊤};
ghost use Rattle.hs_rel_tests.specs.Keys as spec;

use hs_base::PageNo;
use hs_rel::{EvalStop, Judge, StopKind};
use hs_values::{EvalFault, Row, Value, cmp};
use std::cmp::Ordering;

/// The column `left` equals the column `right`. On the left TRUE is a number out of range, FALSE a division by
/// zero, and a timestamp a page that is damaged.
#[derive(Drop)]
pub struct AreEqual {
    pub left: usize,
    pub right: usize,
    /// How many rows were judged.
    pub judged: u64,
}

fn equality(a: &Value, b: &Value) -> Result<Value, EvalFault>
    ensures { result ≡ spec.equality a.now b.now }
{
    match a {
        Value::Bool(true) => Err(EvalFault::Range),
        Value::Bool(false) => Err(EvalFault::DivisionByZero),
        _ => Ok(match cmp(a.as_value_ref(), b.as_value_ref()) {
            None => Value::Null,
            Some(order) => Value::Bool(order == Ordering::Equal),
        }),
    }
}

fn are_equal(row: &[Value], left: usize, right: usize) -> Result<Value, EvalFault>
    ensures { result ≡ spec.are_equal left right row.now }
{
    match (row.get(left), row.get(right)) {
        (Some(a), Some(b)) => equality(a, b),
        _ => Ok(Value::Null),
    }
}

fn is_damaged(row: &[Value], left: usize) -> bool {
    matches!(row.get(left), Some(Value::Micros(_)))
}

impl Judge for AreEqual {
    ghost use Rattle.std.specs.Prelude.{◌≡◌, ⊤};
    ghost use Rattle.hs_rel_tests.specs.Keys.{are_equal};

    ghost ready = { λ s. ⊤ };

    ghost tells = { λ s. ⊤ };

    ghost verdict = { λ s. are_equal s.left s.right };

    ghost disk_faults = { λ s. 0 };

    ghost is_no_page = { λ s page. page ≡ 7 };

    ghost asked = { λ stop old new. ⊤ };

    fn judge(&mut self, row: &Row) -> Result<Value, EvalStop> {
        self.judged = self.judged.saturating_add(1);
        if is_damaged(row.as_slice(), self.left) {
            return Err(EvalStop::Stop(StopKind::Damaged(PageNo(7))));
        }
        Ok(are_equal(row.as_slice(), self.left, self.right)?)
    }

    ghost not_asked = { λ a. tt };

    ghost asked_on = { λ stop a b c before after. tt };

    ghost tells_on = { λ a b asked told. tt };
}
