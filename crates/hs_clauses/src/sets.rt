// Set operations.
ghost use Rattle.std.specs.Prelude.{◌≡◌, false, IfOk, OnOk};
ghost use Rattle.hs_clauses.specs.declared.bound.KeysOver.TheVariants as over;
ghost use Rattle.hs_meaning.specs.Expressions.{kinds_of};
ghost use Rattle.hs_meaning.specs.Queries as spec;
ghost use Rattle.hs_typed.specs.Faults.{noted};

use crate::bound::{BoundBody, KeysOver};
use hs_base::NoMemory;
use hs_columns::{forget_kinds, kinds_of, note_clashes, note_uneven, pair};
use hs_meaning::PlacedColumn;
use hs_plan::{Kind, QueryBody, SetOperator};
use hs_typed::Faults;
use sqlite_items::{Boxed, Items};
use std::alloc::Global;

/// The output columns of two sides together, and their plan.
#[derive(Drop)]
struct Together {
    columns: Vec<PlacedColumn>,
    plan: Option<QueryBody>,
}

fn set_by(
    operator: SetOperator,
    kinds: Option<Items<Kind>>,
    left: Option<QueryBody>,
    right: Option<QueryBody>,
    alloc: Global,
) -> Result<Option<QueryBody>, NoMemory>
    ensures { IfOk result (λ plan. plan ≡ spec.set_by operator kinds left right) }
{
    let Some(kinds) = kinds else {
        return Ok(None);
    };
    let Some(left) = left else {
        return Ok(None);
    };
    let Some(right) = right else {
        return Ok(None);
    };
    Ok(Some(QueryBody::SetOperation {
        operator,
        kinds,
        left: Boxed::new(alloc, left)?,
        right: Boxed::new(alloc, right)?,
    }))
}

fn even_sides(
    operator: SetOperator,
    left: BoundBody,
    right: BoundBody,
    faults: &mut Faults,
    alloc: Global,
) -> Result<Together, NoMemory>
    ensures columns { IfOk result (λ both. both.columns.items ≡ (spec.even_sides operator left.columns.items left.plan right.columns.items right.plan).columns) }
    ensures plan { IfOk result (λ both. both.plan ≡ (spec.even_sides operator left.columns.items left.plan right.columns.items right.plan).plan) }
    ensures noted { OnOk result (faults.new ≡ noted faults.old (spec.even_sides operator left.columns.items left.plan right.columns.items right.plan).faults) }
{
    let mut columns = left.columns;
    note_clashes(&columns, &right.columns, faults);
    pair(&mut columns, &right.columns);
    let kinds = kinds_of(&columns, alloc)?;
    let plan = set_by(operator, kinds, left.plan, right.plan, alloc)?;
    Ok(Together { columns, plan })
}

fn uneven_sides(left: BoundBody, faults: &mut Faults) -> Together
    ensures columns { result.columns.items ≡ spec.unknown left.columns.items }
    ensures plan { result.plan ≡ None }
    ensures noted { faults.new ≡ noted faults.old spec.uneven }
{
    note_uneven(faults);
    let mut columns = left.columns;
    forget_kinds(&mut columns);
    Together {
        columns,
        plan: None,
    }
}

fn sides(
    operator: SetOperator,
    left: BoundBody,
    right: BoundBody,
    faults: &mut Faults,
    alloc: Global,
) -> Result<Together, NoMemory>
    ensures columns { IfOk result (λ both. both.columns.items ≡ (spec.sides operator left.columns.items left.plan right.columns.items right.plan).columns) }
    ensures plan { IfOk result (λ both. both.plan ≡ (spec.sides operator left.columns.items left.plan right.columns.items right.plan).plan) }
    ensures noted { OnOk result (faults.new ≡ noted faults.old (spec.sides operator left.columns.items left.plan right.columns.items right.plan).faults) }
{
    if left.columns.len() == right.columns.len() {
        even_sides(operator, left, right, faults, alloc)
    } else {
        Ok(uneven_sides(left, faults))
    }
}

/// A set operation from its sides. Its columns have the names and places of those on the left, and the kinds at which values
/// of both sides are given. A column of the right side that no kind holds together with the one on the left is noted as a
/// fault of types at its item, and other numbers of columns as a fault of their own. An `Err` is want of memory.
pub fn set_operation(
    operator: SetOperator,
    left: BoundBody,
    right: BoundBody,
    faults: &mut Faults,
    alloc: Global,
) -> Result<BoundBody, NoMemory>
    ensures columns { IfOk result (λ b. b.columns.items ≡ (spec.sides operator left.columns.items left.plan right.columns.items right.plan).columns) }
    ensures plan { IfOk result (λ b. b.plan ≡ (spec.sides operator left.columns.items left.plan right.columns.items right.plan).plan) }
    ensures plain { IfOk result (λ b. b.plain ≡ false) }
    ensures over { IfOk result (λ b. b.over ≡ over.Sides) }
    ensures noted { OnOk result (faults.new ≡ noted faults.old (spec.sides operator left.columns.items left.plan right.columns.items right.plan).faults) }
{
    let both = sides(operator, left, right, faults, alloc)?;
    Ok(BoundBody {
        columns: both.columns,
        plan: both.plan,
        plain: false,
        over: KeysOver::Sides,
    })
}
