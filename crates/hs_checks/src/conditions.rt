// What evaluates the conditions of CHECKs.
ghost use Rattle.std.specs.Prelude.{◌≡◌, IfOk};
ghost use Rattle.std.specs.FinMap.{empty};
ghost use Rattle.hs_answer.specs.Answer.{evaluated};
ghost use Rattle.hs_language.specs.Validity.{lets_pass};
ghost use Rattle.hs_rel.specs.Outcome.{Answers};

use crate::verdict::verdict;
use hs_base::NoMemory;
use hs_draft::Check;
use hs_eval::eval_expr;
use hs_plainrows::PlainRows;
use hs_plan::Expr;
use hs_rel::EvalStop;
use hs_values::{Row, Value};
use std::alloc::{AllocError, Global};

/// What evaluates the conditions of CHECKs. A condition sees the values of its row alone: no table has rows for it.
#[derive(Clone, Copy)]
pub struct Conditions {
    pub alloc: Global,
}

// A row of these values.
fn row_of(alloc: Global, values: &[Value]) -> Result<Row, AllocError>
    ensures { IfOk result (λ row. row ≡ values.now) }
{
    let mut made = Vec::with_capacity(alloc, values.len())?;
    for value in values {
        made.push(value.copy()?)?;
    }
    Ok(Row::from_vec(made))
}

// What a condition gives over a row, where no table has rows.
fn given(alloc: Global, condition: &Expr, row: &Row) -> Result<Value, EvalStop>
    ensures { Answers (evaluated (λ table. empty) condition.now row.now) result }
{
    let mut none = PlainRows::new(alloc);
    eval_expr(alloc, condition, &mut none, row)
}

// Whether a condition lets a row pass.
fn passes(alloc: Global, condition: &Expr, row: &Row) -> Result<bool, NoMemory>
    ensures { IfOk result (λ is. is ≡ lets_pass condition.now row.now) }
{
    verdict(given(alloc, condition, row))
}

impl Check for Conditions {
    ghost use Rattle.hs_language.specs.Validity.{lets_pass};

    ghost checks = { λ s. lets_pass };

    fn lets_pass(&self, condition: &Expr, row: &[Value]) -> Result<bool, NoMemory> {
        let held = row_of(self.alloc, row)?;
        passes(self.alloc, condition, &held)
    }
}
