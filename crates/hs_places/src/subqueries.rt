// What the answers of subqueries give.
ghost use Rattle.std.specs.Prelude.{◌≡◌, false};
ghost use Rattle.hs_values.specs.Order.{seen};
ghost use Rattle.hs_expression.specs.Forms as spec;
ghost use Rattle.hs_values.specs.declared.value.Value.TheVariants as v;

use hs_expression::{RowRef, disjunction, equal_test, is_true, negated_if};
use hs_values::{EvalFault, Row, RowList, Value, ValueRef};

/// EXISTS: whether there is a row. Takes no memory.
#[tactic(auto, using(crate::proofs::Answered::exists_tells))]
pub fn exists(rows: &RowList) -> Value
    ensures { result ≡ spec.exists rows.now }
{
    Value::Bool(!rows.is_empty())
}

/// The first value of a row, or NULL where it has none.
fn first_value(row: Row) -> Value
    ensures { result ≡ spec.first_value row }
{
    let mut values = row.into_vec();
    values.truncate(1);
    match values.pop() {
        Some(value) => value,
        None => Value::Null,
    }
}

/// The value that a subquery stands for: that of its one row, or NULL of no row. The fault is `MoreThanOne`, exactly
/// where there are two rows or more. Takes no memory.
pub fn only_value(rows: RowList) -> Result<Value, EvalFault>
    ensures { result ≡ spec.only_value rows }
{
    let mut all = rows.into_vec();
    if all.len() > 1 {
        return Err(EvalFault::MoreThanOne);
    }
    match all.pop() {
        Some(row) => Ok(first_value(row)),
        None => Ok(Value::Null),
    }
}

/// Whether a value is equal to the first of one of these rows: unknown where it isn't and one comparison is.
#[tactic(auto, using(crate::proofs::Answered::first_is))]
fn found_in(rows: &[Row], x: ValueRef<'_>) -> Result<Value, EvalFault>
    ensures { result ≡ spec.found_in (seen x.entry) (v.Bool false) (spec.values_of rows.now) }
{
    let mut so_far = Value::Bool(false);
    for row in rows {
        let equal = equal_test(None, x, RowRef::Held(row).field(0))?;
        if is_true(equal.as_value_ref()) {
            return Ok(equal);
        }
        so_far = disjunction(so_far.as_value_ref(), equal.as_value_ref());
    }
    Ok(so_far)
}

/// IN with a query, or NOT IN, of these rows. Takes no memory.
pub fn in_answer(negated: bool, rows: &RowList, x: ValueRef<'_>) -> Result<Value, EvalFault>
    ensures { result ≡ spec.in_list negated (spec.values_of rows.now) (seen x.entry) }
{
    Ok(negated_if(negated, found_in(rows.as_slice(), x)?))
}
