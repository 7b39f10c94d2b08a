// Rows for which a condition is TRUE.
ghost use Rattle.std.specs.Prelude.{◌≡◌, Some};
ghost use Rattle.std.specs.FinMap.{values};
ghost use Rattle.hs_answer.specs.Places.{value_over};
ghost use Rattle.hs_expression.specs.Expression.{value_of};
ghost use Rattle.hs_expression.specs.Surroundings.{rows_around};
ghost use Rattle.hs_rel.specs.Outcome.{Answers, stop_of};
ghost use Rattle.hs_rel.specs.Selection.{lesser_of, selected};
ghost use Rattle.hs_rows.specs.Looks.{Looks};

use hs_base::TableNo;
use hs_expression::{Around, Place, RowRef};
use hs_plan::Expr;
use hs_rel::EvalStop;
use hs_rows::{Rows, Takes, copied, scan};
use hs_stages::Gathered;
use hs_valued::is_met;
use hs_values::{EvalFault, RowList};
use std::alloc::Global;

/// A condition, and what was gathered of the rows so far.
#[derive(Drop)]
struct Sieve<'a> {
    condition: &'a Expr,
    outer: &'a Around<'a>,
    alloc: Global,
    so_far: Gathered,
}

fn lesser_of(a: Option<EvalFault>, b: EvalFault) -> EvalFault
    ensures { Some result ≡ lesser_of a b }
{
    match a {
        None => b,
        Some(a) => a.lesser(b),
    }
}

impl<'a> Takes for Sieve<'a> {
    ghost use Rattle.hs_filter.specs.Sieving.{with_row};

    ghost taken = { with_row };

    fn take(&mut self, row: RowRef<'_>) -> Result<(), EvalStop> {
        let around = Around::Row(row, self.outer);
        let place = Place {
            alloc: self.alloc,
            around: &around,
            group: &[],
        };
        match is_met(self.condition, &place) {
            Ok(true) => self.so_far.rows.push(copied(row)?)?,
            Ok(false) => {}
            Err(EvalFault::NoMemory) => return Err(EvalStop::Fault(EvalFault::NoMemory)),
            Err(fault) => self.so_far.fault = Some(lesser_of(self.so_far.fault, fault)),
        }
        Ok(())
    }
}

/// Copies of the rows of a table for which a condition without subqueries is TRUE, in the order of their numbers;
/// one that stands in it counts as one without rows. An `Err` is the least fault that the condition has for a row, a
/// stop of the rows as they gave it, or want of memory.
pub fn true_rows<R: Rows>(
    alloc: Global,
    condition: &Expr,
    outer: &Around<'_>,
    table: TableNo,
    rows: &mut R,
) -> Result<RowList, EvalStop>
    requires { R.ready rows.old }
    ensures rows { R.tells rows.old → Answers (selected (value_over (value_of condition.now) (rows_around outer.now)) (values (R.tables rows.old table.0))) result }
    ensures looks { Looks R.Rows (stop_of result) rows.old rows.new }
{
    let mut sieve = Sieve {
        condition,
        outer,
        alloc,
        so_far: Gathered::new(alloc),
    };
    scan(rows, table, &mut sieve)?;
    sieve.so_far.end()
}
