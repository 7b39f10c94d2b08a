// Expressions and queries over copies of tables.
ghost use Rattle.hs_answer.specs.Answer.{evaluated};
ghost use Rattle.hs_copied.specs.Copies.{maps_of};
ghost use Rattle.hs_values.specs.Outcome.{Gives};

use hs_copied::TableCopies;
use hs_dml::Answers;
use hs_eval::{query_rows, value};
use hs_expression::{Around, Place, RowRef};
use hs_lookups::Equalities;
use hs_newrows::Evaluates;
use hs_plan::{Expr, Query};
use hs_values::{EvalFault, Row, RowList, Value};
use std::alloc::{AllocError, Global};

/// What evaluates a statement's expressions and queries: copies of the tables that these name.
#[derive(Clone, Copy)]
pub(crate) struct OverCopies<'a> {
    pub(crate) copies: &'a TableCopies,
}

// What an expression gives over a row.
fn value_over(e: &Expr, copies: &TableCopies, row: &Row) -> Result<Value, EvalFault>
    ensures { Gives result (evaluated (maps_of copies.now) e.now row.now) }
{
    let around = Around::Row(RowRef::Held(row), &Around::Nothing);
    let place = Place {
        alloc: copies.allocator(),
        around: &around,
        group: &[],
    };
    value(e, copies, &place)
}

impl Evaluates for OverCopies<'_> {
    ghost use Rattle.hs_answer.specs.Answer.{evaluated};
    ghost use Rattle.hs_copied.specs.Copies.{maps_of};

    ghost evaluate = { λ s. evaluated (maps_of s.copies.now) };

    fn value(&self, e: &Expr, row: &Row) -> Result<Value, EvalFault> {
        value_over(e, self.copies, row)
    }

    fn equalities(&self, alloc: Global, condition: &Expr) -> Result<Equalities, AllocError> {
        Equalities::of(alloc, condition)
    }
}

impl Answers for OverCopies<'_> {
    ghost use Rattle.hs_answer.specs.Answer.{answer};
    ghost use Rattle.hs_copied.specs.Copies.{maps_of};

    ghost answer = { λ s. answer (maps_of s.copies.now) };

    fn rows(&self, query: &Query) -> Result<RowList, EvalFault> {
        query_rows(query, self.copies, &Around::Nothing)
    }
}
