// The value of an expression: a function for each form that has parts in order, and one for all forms.
ghost use Rattle.std.specs.Prelude.{◌≡◌, false, OnOk, IfErr};
ghost use Rattle.hs_values.specs.declared.fault.EvalFault.TheVariants.{NoMemory};
ghost use Rattle.hs_values.specs.declared.value.Value.TheVariants as v;
ghost use Rattle.hs_values.specs.Order.{seen};
ghost use Rattle.hs_values.specs.Outcome.{Gives};
ghost use Rattle.hs_expression.specs.Expression.{value_of};
ghost use Rattle.hs_expression.specs.Forms as spec;
ghost use Rattle.hs_expression.specs.Surroundings.{at_row, surroundings_of};
ghost use Rattle.hs_valued.specs.Evaluated.{Shows, shown};
ghost use Rattle.hs_valued.specs.Gathering.{gathered};
ghost use Rattle.hs_valued.specs.Parts.{found_by, chosen_by, known_by, in_group_by};

use crate::evaluated::Evaluated;
use crate::gathered::Gathered;
use crate::parts::{is_decided, is_false, reading_in};
use hs_expression::{
    Around, Place, RowRef, aggregate_value, between_value, binary_value, count_value, disjunction,
    equal_test, given_at, greatest_test, is_null, is_true, least_test, negated_if, read_value,
    readable, ternary_value, unary_value,
};
use hs_plan::{Binary, CaseArm, Expr, ListItem, Reading, Ternary};
use hs_values::{EvalFault, Row, Value, ValueRef};

/// The value of an expression without subqueries at its place; one that stands in it counts as one without rows. A
/// column and a literal are lent, so that they take no memory. An `Err` is the fault that it has, or want of memory.
#[tactic(auto, using(crate::proofs::Alone::answers_none))]
#[cycle(evaluation)]
pub fn evaluate<'a>(e: &'a Expr, place: &Place<'a>) -> Result<Evaluated<'a>, EvalFault>
    ensures { Shows (value_of e.now (surroundings_of place.now)) result }
{
    match e {
        Expr::Literal(value) => Ok(Evaluated::Lent(value.as_value_ref())),
        Expr::ReadText { reading, .. } => Ok(Evaluated::Made(read_value(*reading)?)),
        Expr::BadMoment { .. } => Err(EvalFault::BadDate),
        Expr::Column { outward, at } => Ok(Evaluated::Lent(place.around.column(*outward, *at))),
        Expr::Unary(operator, a) => {
            let x = evaluate(a.get(), place)?;
            Ok(Evaluated::Made(unary_value(place.alloc, *operator, x.as_value_ref())?))
        }
        Expr::Binary(operator, a, b) => {
            let x = evaluate(a.get(), place)?;
            second_operand(b.get(), *operator, x, place)
        }
        Expr::Ternary(Ternary::Between { negated, low, high }, a, b, c) => {
            let x = evaluate(a.get(), place)?;
            let above = least_tested(b.get(), *low, x.as_value_ref(), place)?;
            if is_false(above.as_value_ref()) {
                return Ok(Evaluated::Made(negated_if(*negated, above)));
            }
            let below = greatest_tested(c.get(), *high, x.as_value_ref(), place)?;
            Ok(Evaluated::Made(between_value(*negated, above.as_value_ref(), below.as_value_ref())))
        }
        Expr::Ternary(Ternary::SubstringFor, a, b, c) => {
            let x = evaluate(a.get(), place)?;
            let y = evaluate(b.get(), place)?;
            let z = evaluate(c.get(), place)?;
            Ok(Evaluated::Made(ternary_value(
                place.alloc,
                Ternary::SubstringFor,
                x.as_value_ref(),
                y.as_value_ref(),
                z.as_value_ref(),
            )?))
        }
        Expr::InList {
            operand,
            negated,
            list,
        } => {
            let x = evaluate(operand.get(), place)?;
            let found = found_in(list.as_slice(), x.as_value_ref(), place)?;
            Ok(Evaluated::Made(negated_if(*negated, found)))
        }
        Expr::InQuery {
            operand,
            negated,
            ..
        } => {
            let _x = evaluate(operand.get(), place)?;
            Ok(Evaluated::Made(negated_if(*negated, Value::Bool(false))))
        }
        Expr::Exists(_) => Ok(Evaluated::Made(Value::Bool(false))),
        Expr::Subquery(_) => Ok(Evaluated::Made(Value::Null)),
        Expr::Case {
            kind,
            arms,
            otherwise,
        } => {
            match chosen(arms.as_slice(), place)? {
                Some(x) => Ok(Evaluated::Made(given_at(*kind, x)?)),
                None => match otherwise {
                    Some(e) => {
                        let x = evaluate(e.get(), place)?;
                        Ok(Evaluated::Made(given_at(*kind, x.into_value(place.alloc)?)?))
                    }
                    None => Ok(Evaluated::Made(given_at(*kind, Value::Null)?)),
                },
            }
        }
        Expr::Coalesce { kind, operands } => {
            let x = first_known(operands.as_slice(), place)?;
            Ok(Evaluated::Made(given_at(*kind, x)?))
        }
        Expr::CountRows => Ok(Evaluated::Made(count_value(place.group.len())?)),
        Expr::Aggregate {
            function,
            distinct,
            operand,
        } => {
            let values = in_group(operand.get(), place)?;
            Ok(Evaluated::Made(aggregate_value(
                place.alloc,
                *function,
                *distinct,
                values.into_vec(),
            )?))
        }
    }
}

/// An operation on a value and the operand behind it, which isn't evaluated where the value decides.
#[cycle(evaluation)]
fn second_operand<'a>(
    second: &'a Expr,
    operator: Binary,
    x: Evaluated<'a>,
    place: &Place<'a>,
) -> Result<Evaluated<'a>, EvalFault>
    ensures { Shows (spec.second_operand operator (value_of second.now (surroundings_of place.now)) (shown x.entry)) result }
{
    if is_decided(operator, x.as_value_ref()) {
        return Ok(x);
    }
    readable(reading_in(operator))?;
    let y = evaluate(second, place)?;
    Ok(Evaluated::Made(binary_value(place.alloc, operator, x.as_value_ref(), y.as_value_ref())?))
}

/// The first half of BETWEEN.
#[cycle(evaluation)]
fn least_tested<'a>(
    low: &'a Expr,
    reading: Option<Reading>,
    x: ValueRef<'a>,
    place: &Place<'a>,
) -> Result<Value, EvalFault>
    ensures { Gives result (spec.least_tested reading (value_of low.now (surroundings_of place.now)) (seen x.entry)) }
{
    readable(reading)?;
    let y = evaluate(low, place)?;
    least_test(reading, x, y.as_value_ref())
}

/// The second half of BETWEEN.
#[cycle(evaluation)]
fn greatest_tested<'a>(
    high: &'a Expr,
    reading: Option<Reading>,
    x: ValueRef<'a>,
    place: &Place<'a>,
) -> Result<Value, EvalFault>
    ensures { Gives result (spec.greatest_tested reading (value_of high.now (surroundings_of place.now)) (seen x.entry)) }
{
    readable(reading)?;
    let z = evaluate(high, place)?;
    greatest_test(reading, x, z.as_value_ref())
}

/// Whether a value is equal to one of a list.
#[cycle(evaluation)]
fn found_in<'a>(
    list: &'a [ListItem],
    x: ValueRef<'a>,
    place: &Place<'a>,
) -> Result<Value, EvalFault>
    ensures { Gives result (found_by (surroundings_of place.now) (seen x.entry) (v.Bool false) list.now) }
{
    let mut so_far = Value::Bool(false);
    for item in list {
        readable(item.reading)?;
        let y = evaluate(&item.value, place)?;
        let equal = equal_test(item.reading, x, y.as_value_ref())?;
        if is_true(equal.as_value_ref()) {
            return Ok(equal);
        }
        so_far = disjunction(so_far.as_value_ref(), equal.as_value_ref());
    }
    Ok(so_far)
}

/// What the first arm gives whose test is TRUE.
#[cycle(evaluation)]
fn chosen<'a>(arms: &'a [CaseArm], place: &Place<'a>) -> Result<Option<Value>, EvalFault>
    ensures { Gives result (chosen_by (surroundings_of place.now) arms.now) }
{
    for arm in arms {
        let test = evaluate(&arm.test, place)?;
        if is_true(test.as_value_ref()) {
            let x = evaluate(&arm.value, place)?;
            return Ok(Some(x.into_value(place.alloc)?));
        }
    }
    Ok(None)
}

/// The first value that isn't NULL.
#[cycle(evaluation)]
fn first_known<'a>(operands: &'a [Expr], place: &Place<'a>) -> Result<Value, EvalFault>
    ensures { Gives result (known_by (surroundings_of place.now) operands.now) }
{
    for e in operands {
        let x = evaluate(e, place)?;
        if !is_null(x.as_value_ref()) {
            return Ok(x.into_value(place.alloc)?);
        }
    }
    Ok(Value::Null)
}

/// The values of an expression at the rows of the group.
#[cycle(evaluation)]
fn in_group<'a>(e: &'a Expr, place: &Place<'a>) -> Result<Row, EvalFault>
    ensures { Gives result (in_group_by (value_of e.now) (surroundings_of place.now)) }
{
    let mut so_far = Gathered::new(place.alloc);
    for row in place.group {
        gather(e, row, place, &mut so_far)?;
    }
    so_far.ended()
}

/// Evaluates an expression at a row of the group, and keeps its value or its fault. An `Err` is want of memory.
#[cycle(evaluation)]
fn gather<'a>(
    e: &'a Expr,
    row: &'a Row,
    place: &Place<'a>,
    so_far: &mut Gathered,
) -> Result<(), EvalFault>
    ensures ok { OnOk result (so_far.new ≡ gathered so_far.old (value_of e.now (at_row (surroundings_of place.now) row.now))) }
    ensures err { IfErr result (λ fault. fault ≡ NoMemory) }
{
    let around = Around::Row(RowRef::Held(row), place.around.outside());
    let at_row = Place {
        alloc: place.alloc,
        around: &around,
        group: &[],
    };
    match evaluate(e, &at_row) {
        Ok(x) => {
            so_far.add(x.into_value(place.alloc)?)?;
            Ok(())
        }
        Err(EvalFault::NoMemory) => Err(EvalFault::NoMemory),
        Err(fault) => {
            so_far.add_fault(fault);
            Ok(())
        }
    }
}
