// Lists of expressions, and the arms of a CASE.
ghost use Rattle.std.specs.Prelude.{map};
ghost use Rattle.hs_meaning.specs.Expressions as spec;
ghost use Rattle.hs_meaning.specs.Trees.{arm_of, part_of};
ghost use Rattle.hs_resolve.specs.Bound.{FindsAll};
ghost use Rattle.hs_meaning.specs.Around.{seen};

use crate::expressions::bind_expression;
use hs_ast::{CaseArm, Expression};
use hs_base::NoMemory;
use hs_conclusions::{arm, with_part};
use hs_meaning::Surroundings;
use hs_schema::Catalog;
use hs_typed::{Faults, Typed, TypedArm};
use std::alloc::Global;

/// What expressions mean, one after another, which is known where all are. An `Err` is want of memory.
#[cycle(binding)]
pub(crate) fn bind_all(
    all: &[Expression],
    around: &Surroundings<'_>,
    catalog: &Catalog,
    faults: &mut Faults,
    alloc: Global,
) -> Result<Option<Vec<Typed>>, NoMemory>
    ensures { FindsAll (spec.all_in (seen around.now) (map (part_of catalog.now) all.now)) faults.old faults.new result }
{
    let mut parts = Some(Vec::new(alloc));
    for e in all {
        let part = bind_expression(e, around, catalog, faults, alloc)?;
        parts = with_part(parts, part)?;
    }
    Ok(parts)
}

/// What the arms of a CASE mean, which is known where all are. An `Err` is want of memory.
#[cycle(binding)]
pub(crate) fn bind_arms(
    arms: &[CaseArm],
    around: &Surroundings<'_>,
    catalog: &Catalog,
    faults: &mut Faults,
    alloc: Global,
) -> Result<Option<Vec<TypedArm>>, NoMemory>
    ensures { FindsAll (spec.arms_in (seen around.now) (map (arm_of catalog.now) arms.now)) faults.old faults.new result }
{
    let mut parts = Some(Vec::new(alloc));
    for one in arms {
        let test = bind_expression(&one.test, around, catalog, faults, alloc)?;
        let value = bind_expression(&one.value, around, catalog, faults, alloc)?;
        parts = with_part(parts, arm(test, value))?;
    }
    Ok(parts)
}
