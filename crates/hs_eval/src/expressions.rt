// The value of an expression: a function for each form that has parts in order, and one for all forms.
ghost use Rattle.std.specs.Prelude.{◌≡◌};
ghost use Rattle.hs_answer.specs.Answer.{value_in};
ghost use Rattle.hs_copied.specs.Copies.{maps_of};
ghost use Rattle.hs_expression.specs.Forms as spec;
ghost use Rattle.hs_expression.specs.Surroundings.{surroundings_of};
ghost use Rattle.hs_values.specs.Order.{seen};
ghost use Rattle.hs_values.specs.Outcome.{Gives};
ghost use Rattle.hs_eval.specs.Parts.{aggregate_of};

use crate::columns::column;
use crate::lists::{chosen, first_known, found_in};
use crate::outcomes::{aggregated, group_spots};
use crate::parts::{is_decided, is_false, reading_in};
use crate::queries::query_rows;
use hs_ast::Aggregate;
use hs_copied::TableCopies;
use hs_expression::{
    Place, between_value, binary_value, count_value, given_at, greatest_test, least_test,
    negated_if, read_value, readable, ternary_value, unary_value,
};
use hs_places::{exists, in_answer, only_value};
use hs_plan::{Binary, Expr, Reading, Ternary};
use hs_values::{EvalFault, Value, ValueRef};

/// The value of an expression at its place, over copies of the tables that its subqueries name. An `Err` is the fault that
/// it has, or want of memory.
#[cycle(evaluation)]
pub fn value(e: &Expr, copies: &TableCopies, place: &Place<'_>) -> Result<Value, EvalFault>
    ensures { Gives result (value_in (maps_of copies.now) e.now (surroundings_of place.now)) }
{
    match e {
        Expr::Literal(value) => Ok(value.copy()?),
        Expr::ReadText { reading, .. } => read_value(*reading),
        Expr::BadMoment { .. } => Err(EvalFault::BadDate),
        Expr::Column { outward, at } => {
            Ok(place.around.column(*outward, *at).to_value(place.alloc)?)
        }
        Expr::Unary(operator, a) => {
            let x = value(a.get(), copies, place)?;
            unary_value(place.alloc, *operator, x.as_value_ref())
        }
        Expr::Binary(operator, a, b) => {
            let x = value(a.get(), copies, place)?;
            second_operand(b.get(), *operator, x, copies, place)
        }
        Expr::Ternary(Ternary::Between { negated, low, high }, a, b, c) => {
            let x = value(a.get(), copies, place)?;
            let above = least_tested(b.get(), *low, x.as_value_ref(), copies, place)?;
            if is_false(above.as_value_ref()) {
                return Ok(negated_if(*negated, above));
            }
            let below = greatest_tested(c.get(), *high, x.as_value_ref(), copies, place)?;
            Ok(between_value(*negated, above.as_value_ref(), below.as_value_ref()))
        }
        Expr::Ternary(Ternary::SubstringFor, a, b, c) => {
            let x = value(a.get(), copies, place)?;
            let y = value(b.get(), copies, place)?;
            let z = value(c.get(), copies, place)?;
            ternary_value(
                place.alloc,
                Ternary::SubstringFor,
                x.as_value_ref(),
                y.as_value_ref(),
                z.as_value_ref(),
            )
        }
        Expr::InList {
            operand,
            negated,
            list,
        } => {
            let x = value(operand.get(), copies, place)?;
            let found = found_in(list.as_slice(), x.as_value_ref(), copies, place)?;
            Ok(negated_if(*negated, found))
        }
        Expr::InQuery {
            operand,
            negated,
            query,
        } => {
            let x = value(operand.get(), copies, place)?;
            let rows = query_rows(query.get(), copies, place.around)?;
            in_answer(*negated, &rows, x.as_value_ref())
        }
        Expr::Exists(query) => {
            let rows = query_rows(query.get(), copies, place.around)?;
            Ok(exists(&rows))
        }
        Expr::Subquery(query) => only_value(query_rows(query.get(), copies, place.around)?),
        Expr::Case {
            kind,
            arms,
            otherwise,
        } => {
            match chosen(arms.as_slice(), copies, place)? {
                Some(x) => given_at(*kind, x),
                None => match otherwise {
                    Some(e) => given_at(*kind, value(e.get(), copies, place)?),
                    None => given_at(*kind, Value::Null),
                },
            }
        }
        Expr::Coalesce { kind, operands } => {
            let x = first_known(operands.as_slice(), copies, place)?;
            given_at(*kind, x)
        }
        Expr::CountRows => count_value(place.group.len()),
        Expr::Aggregate {
            function,
            distinct,
            operand,
        } => aggregate(operand.get(), *function, *distinct, copies, place),
    }
}

/// An operation on a value and the operand behind it, which isn't evaluated where the value decides.
#[cycle(evaluation)]
fn second_operand(
    second: &Expr,
    operator: Binary,
    x: Value,
    copies: &TableCopies,
    place: &Place<'_>,
) -> Result<Value, EvalFault>
    ensures { Gives result (spec.second_operand operator (value_in (maps_of copies.now) second.now (surroundings_of place.now)) x) }
{
    if is_decided(operator, x.as_value_ref()) {
        return Ok(x);
    }
    readable(reading_in(operator))?;
    let y = value(second, copies, place)?;
    binary_value(place.alloc, operator, x.as_value_ref(), y.as_value_ref())
}

/// The first half of BETWEEN.
#[cycle(evaluation)]
fn least_tested(
    low: &Expr,
    reading: Option<Reading>,
    x: ValueRef<'_>,
    copies: &TableCopies,
    place: &Place<'_>,
) -> Result<Value, EvalFault>
    ensures { Gives result (spec.least_tested reading (value_in (maps_of copies.now) low.now (surroundings_of place.now)) (seen x.entry)) }
{
    readable(reading)?;
    let y = value(low, copies, place)?;
    least_test(reading, x, y.as_value_ref())
}

/// The second half of BETWEEN.
#[cycle(evaluation)]
fn greatest_tested(
    high: &Expr,
    reading: Option<Reading>,
    x: ValueRef<'_>,
    copies: &TableCopies,
    place: &Place<'_>,
) -> Result<Value, EvalFault>
    ensures { Gives result (spec.greatest_tested reading (value_in (maps_of copies.now) high.now (surroundings_of place.now)) (seen x.entry)) }
{
    readable(reading)?;
    let z = value(high, copies, place)?;
    greatest_test(reading, x, z.as_value_ref())
}

/// An aggregate of what its operand gives at the rows of the group.
#[cycle(evaluation)]
fn aggregate(
    operand: &Expr,
    function: Aggregate,
    distinct: bool,
    copies: &TableCopies,
    place: &Place<'_>,
) -> Result<Value, EvalFault>
    ensures { Gives result (aggregate_of function distinct (value_in (maps_of copies.now) operand.now) (surroundings_of place.now)) }
{
    let spots = group_spots(place);
    let outcomes = column(operand, copies, &spots)?;
    aggregated(place.alloc, function, distinct, outcomes)
}
