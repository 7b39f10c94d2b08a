// Expressions.
ghost use Rattle.hs_meaning.specs.Expressions as spec;
ghost use Rattle.hs_meaning.specs.Layers.{means};
ghost use Rattle.hs_meaning.specs.Parts.{by_one};
ghost use Rattle.hs_meaning.specs.Surroundings.{in_aggregate};
ghost use Rattle.hs_meaning.specs.Trees.{form_of, part_of};
ghost use Rattle.hs_meaning.specs.Around.{seen};
ghost use Rattle.hs_meaning.specs.Finding.{Finds};
ghost use Rattle.hs_typed.specs.Rules.{unary_typed};

use crate::lists::{bind_all, bind_arms};
use crate::operands::{escaped, null_test, signed, written};
use crate::subqueries::{bind_exists, bind_in_query, bind_subquery};
use hs_ast::{Expression, ExpressionKind};
use hs_base::NoMemory;
use hs_conclusions::{
    aggregate, between, binary, call, case, condition, count_rows, in_list, like, substring, trim,
    unary,
};
use hs_meaning::{Surroundings, column};
use hs_plan::{Aggregate, Unary};
use hs_schema::Catalog;
use hs_typed::{Faults, Typed, bind_literal, sql_type};
use std::alloc::Global;

/// What an expression means, which is known where neither it nor a part of it breaks a rule. Its faults are noted. An `Err` is
/// want of memory.
#[cycle(binding)]
pub(crate) fn bind_expression(
    e: &Expression,
    around: &Surroundings<'_>,
    catalog: &Catalog,
    faults: &mut Faults,
    alloc: Global,
) -> Result<Option<Typed>, NoMemory>
    ensures { Finds (means (part_of catalog.now e.now) (seen around.now)) faults.old faults.new result }
{
    bind_form(&e.kind, e.at, around, catalog, faults, alloc)
}

/// The same of an expression at byte `at`.
#[cycle(binding)]
fn bind_form(
    kind: &ExpressionKind,
    at: u32,
    around: &Surroundings<'_>,
    catalog: &Catalog,
    faults: &mut Faults,
    alloc: Global,
) -> Result<Option<Typed>, NoMemory>
    ensures { Finds ((form_of catalog.now kind.now).means at (seen around.now)) faults.old faults.new result }
{
    match kind {
        ExpressionKind::Literal(literal) => Ok(Some(bind_literal(literal, alloc)?)),
        ExpressionKind::Column(name) => column(at, name, around, faults, alloc),
        ExpressionKind::Signed(sign, a) => {
            bind_unary(a.get(), at, signed(*sign), around, catalog, faults, alloc)
        }
        ExpressionKind::Not(a) => {
            bind_unary(a.get(), at, Unary::Not, around, catalog, faults, alloc)
        }
        ExpressionKind::Binary(operator, a, b) => {
            let a = bind_expression(a.get(), around, catalog, faults, alloc)?;
            let b = bind_expression(b.get(), around, catalog, faults, alloc)?;
            binary(at, *operator, a, b, faults, alloc)
        }
        ExpressionKind::IsNull { operand, negated } => {
            let operator = null_test(*negated);
            bind_unary(operand.get(), at, operator, around, catalog, faults, alloc)
        }
        ExpressionKind::Between {
            operand,
            negated,
            low,
            high,
        } => {
            let a = bind_expression(operand.get(), around, catalog, faults, alloc)?;
            let low = bind_expression(low.get(), around, catalog, faults, alloc)?;
            let high = bind_expression(high.get(), around, catalog, faults, alloc)?;
            between(at, *negated, a, low, high, faults, alloc)
        }
        ExpressionKind::InList {
            operand,
            negated,
            list,
        } => {
            let a = bind_expression(operand.get(), around, catalog, faults, alloc)?;
            let list = bind_all(list.as_slice(), around, catalog, faults, alloc)?;
            in_list(at, *negated, a, list, faults, alloc)
        }
        ExpressionKind::InQuery {
            operand,
            negated,
            query,
        } => {
            let a = bind_expression(operand.get(), around, catalog, faults, alloc)?;
            bind_in_query(query.get(), at, *negated, a, around, catalog, faults, alloc)
        }
        ExpressionKind::Like {
            operand,
            negated,
            pattern,
            escape,
        } => {
            let a = bind_expression(operand.get(), around, catalog, faults, alloc)?;
            let pattern = bind_expression(pattern.get(), around, catalog, faults, alloc)?;
            like(at, *negated, a, pattern, escaped(escape), faults, alloc)
        }
        ExpressionKind::Exists(query) => {
            bind_exists(query.get(), at, around, catalog, faults, alloc)
        }
        ExpressionKind::Subquery(query) => {
            bind_subquery(query.get(), at, around, catalog, faults, alloc)
        }
        ExpressionKind::Cast(a, data_type) => {
            let operator = Unary::Cast(sql_type(*data_type));
            bind_unary(a.get(), at, operator, around, catalog, faults, alloc)
        }
        ExpressionKind::Case { arms, otherwise } => {
            let arms = bind_arms(arms.as_slice(), around, catalog, faults, alloc)?;
            let Some(e) = otherwise else {
                return case(at, arms, Some(None), faults, alloc);
            };
            let e = bind_expression(e.get(), around, catalog, faults, alloc)?;
            case(at, arms, written(e), faults, alloc)
        }
        ExpressionKind::Call(function, operands) => {
            let operands = bind_all(operands.as_slice(), around, catalog, faults, alloc)?;
            call(at, *function, operands, faults, alloc)
        }
        ExpressionKind::Substring { text, start, count } => {
            let text = bind_expression(text.get(), around, catalog, faults, alloc)?;
            let start = bind_expression(start.get(), around, catalog, faults, alloc)?;
            let Some(count) = count else {
                return substring(at, text, start, Some(None), faults, alloc);
            };
            let count = bind_expression(count.get(), around, catalog, faults, alloc)?;
            substring(at, text, start, written(count), faults, alloc)
        }
        ExpressionKind::Trim {
            form,
            character,
            text,
        } => {
            let Some(character) = character else {
                let text = bind_expression(text.get(), around, catalog, faults, alloc)?;
                return trim(at, *form, Some(None), text, faults, alloc);
            };
            let character = bind_expression(character.get(), around, catalog, faults, alloc)?;
            let text = bind_expression(text.get(), around, catalog, faults, alloc)?;
            trim(at, *form, written(character), text, faults, alloc)
        }
        ExpressionKind::Extract(field, a) => {
            bind_unary(
                a.get(),
                at,
                Unary::Extract(*field),
                around,
                catalog,
                faults,
                alloc,
            )
        }
        ExpressionKind::Interval {
            operand,
            sign,
            count,
            unit,
        } => {
            let operator = Unary::Interval {
                sign: *sign,
                count: *count,
                unit: *unit,
            };
            bind_unary(operand.get(), at, operator, around, catalog, faults, alloc)
        }
        ExpressionKind::CountRows => Ok(count_rows(at, around, faults)),
        ExpressionKind::Aggregate {
            function,
            distinct,
            operand,
        } => {
            let e = operand.get();
            bind_aggregate(e, at, *function, *distinct, around, catalog, faults, alloc)
        }
    }
}

/// What takes one operand. An `Err` is want of memory.
#[cycle(binding)]
fn bind_unary(
    e: &Expression,
    at: u32,
    operator: Unary,
    around: &Surroundings<'_>,
    catalog: &Catalog,
    faults: &mut Faults,
    alloc: Global,
) -> Result<Option<Typed>, NoMemory>
    ensures { Finds (by_one (unary_typed operator) at (means (part_of catalog.now e.now) (seen around.now))) faults.old faults.new result }
{
    let a = bind_expression(e, around, catalog, faults, alloc)?;
    unary(at, operator, a, faults, alloc)
}

/// An aggregate of an operand. An `Err` is want of memory.
#[cycle(binding)]
fn bind_aggregate(
    e: &Expression,
    at: u32,
    function: Aggregate,
    distinct: bool,
    around: &Surroundings<'_>,
    catalog: &Catalog,
    faults: &mut Faults,
    alloc: Global,
) -> Result<Option<Typed>, NoMemory>
    ensures { Finds (spec.aggregate_meaning function distinct at (seen around.now) (means (part_of catalog.now e.now) (in_aggregate (seen around.now)))) faults.old faults.new result }
{
    let inside = around.in_aggregate();
    let a = bind_expression(e, &inside, catalog, faults, alloc)?;
    aggregate(at, function, distinct, a, around, faults, alloc)
}

/// What stands behind ON, WHERE, HAVING or CHECK. None where it breaks a rule or is no BOOLEAN. Its faults are noted. An `Err`
/// is want of memory.
#[cycle(binding)]
pub(crate) fn bind_condition(
    e: &Expression,
    around: &Surroundings<'_>,
    catalog: &Catalog,
    faults: &mut Faults,
    alloc: Global,
) -> Result<Option<Typed>, NoMemory>
    ensures { Finds (spec.condition (seen around.now) (part_of catalog.now e.now)) faults.old faults.new result }
{
    let a = bind_expression(e, around, catalog, faults, alloc)?;
    Ok(condition(e.at, a, faults))
}
