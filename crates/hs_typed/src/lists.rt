// What takes a list: IN, CASE and COALESCE.
ghost use Rattle.std.specs.Prelude.{◌≡◌, IfOk, map};
ghost use Rattle.std.specs.List.{list_all};
ghost use Rattle.hs_plan.specs.Typing as typing;
ghost use Rattle.hs_typed.specs.Comparing as comparing;
ghost use Rattle.hs_typed.specs.Rules as spec;
ghost use Rattle.hs_typed.specs.Rules.{Gives};

use crate::typed::{RuleFault, Typed};
use hs_plan::{CaseArm, Expr, Kind, ListItem, is_condition, widest};
use sqlite_items::{Boxed, Items};
use std::alloc::{AllocError, Global};

/// `WHEN test THEN value` of CASE.
#[derive(Drop)]
pub struct TypedArm {
    pub test: Typed,
    pub value: Typed,
}

// ---- IN

fn goes_with_all(a: &Typed, list: &[Typed]) -> bool
    ensures { result ≡ list_all (comparing.goes_with a.now) list.now }
{
    list.iter().all(|x| a.goes_with(x))
}

/// The values of a list, each as the operand is compared with it.
fn list_items(a: &Typed, list: Vec<Typed>, alloc: Global) -> Result<Items<ListItem>, AllocError>
    ensures { IfOk result (λ items. items ≡ map (spec.list_item a.now) list.items) }
{
    let mut items = Items::new(alloc);
    for x in list {
        items.push(ListItem {
            reading: a.reading_beside(x.kind),
            value: x.beside(a.kind).tree,
        })?;
    }
    Ok(items)
}

/// IN with a list. `Types` where the operand can't be compared with each value.
pub fn bind_in_list(
    negated: bool,
    a: Typed,
    list: Vec<Typed>,
    alloc: Global,
) -> Result<Typed, RuleFault>
    ensures { Gives result (spec.in_list_typed negated a list.items) }
{
    if !goes_with_all(&a, list.as_slice()) {
        return Err(RuleFault::Types);
    }
    let list = list_items(&a, list, alloc)?;
    Ok(Typed {
        tree: Expr::InList {
            operand: Boxed::new(alloc, a.tree)?,
            negated,
            list,
        },
        kind: Kind::Boolean,
    })
}

// ---- choices

fn widened(kind: Option<Kind>, more: Kind) -> Option<Kind>
    ensures { result ≡ spec.widened kind more }
{
    match kind {
        Some(kind) => widest(kind, more),
        None => None,
    }
}

/// The kind at which values of a kind and these are given, one of which is chosen.
fn widest_with(first: Option<Kind>, more: &[Typed]) -> Option<Kind>
    ensures { result ≡ spec.widest_with first (spec.kinds_of more.now) }
{
    let mut kind = first;
    for a in more {
        kind = widened(kind, a.kind);
    }
    kind
}

fn widest_of_arms(arms: &[TypedArm]) -> Option<Kind>
    ensures { result ≡ spec.widest_of (map (λ arm. arm.value.kind) arms.now) }
{
    let mut kind = Some(Kind::Null);
    for arm in arms {
        kind = widened(kind, arm.value.kind);
    }
    kind
}

fn case_kind(arms: &[TypedArm], otherwise: &Option<Typed>) -> Option<Kind>
    ensures { result ≡ spec.widest_of (spec.kinds_of (spec.values_of arms.now otherwise.now)) }
{
    let kind = widest_of_arms(arms);
    match otherwise {
        Some(a) => widened(kind, a.kind),
        None => kind,
    }
}

fn are_conditions(arms: &[TypedArm]) -> bool
    ensures { result ≡ list_all (λ arm. typing.is_condition arm.test.kind) arms.now }
{
    arms.iter().all(|arm| is_condition(arm.test.kind))
}

fn case_arms(arms: Vec<TypedArm>, alloc: Global) -> Result<Items<CaseArm>, AllocError>
    ensures { IfOk result (λ trees. trees ≡ map spec.arm_of arms.items) }
{
    let mut trees = Items::new(alloc);
    for arm in arms {
        trees.push(CaseArm {
            test: arm.test.tree,
            value: arm.value.tree,
        })?;
    }
    Ok(trees)
}

/// CASE. `Types` where a test is no BOOLEAN, and where the values, that of ELSE too, aren't all numbers or all of one
/// other kind.
pub fn bind_case(
    arms: Vec<TypedArm>,
    otherwise: Option<Typed>,
    alloc: Global,
) -> Result<Typed, RuleFault>
    ensures { Gives result (spec.case_typed arms.items otherwise) }
{
    if !are_conditions(arms.as_slice()) {
        return Err(RuleFault::Types);
    }
    let Some(kind) = case_kind(arms.as_slice(), &otherwise) else {
        return Err(RuleFault::Types);
    };
    let arms = case_arms(arms, alloc)?;
    let otherwise = match otherwise {
        Some(a) => Some(Boxed::new(alloc, a.tree)?),
        None => None,
    };
    Ok(Typed {
        tree: Expr::Case {
            kind,
            arms,
            otherwise,
        },
        kind,
    })
}

fn trees(all: Vec<Typed>, alloc: Global) -> Result<Items<Expr>, AllocError>
    ensures { IfOk result (λ trees. trees ≡ map (λ a. a.tree) all.items) }
{
    let mut trees = Items::new(alloc);
    for a in all {
        trees.push(a.tree)?;
    }
    Ok(trees)
}

/// COALESCE. `Types` where it has no operand, and where the operands aren't all numbers or all of one other kind.
pub(crate) fn bind_coalesce(operands: Vec<Typed>, alloc: Global) -> Result<Typed, RuleFault>
    ensures { Gives result (spec.coalesce_typed operands.items) }
{
    if operands.is_empty() {
        return Err(RuleFault::Types);
    }
    let Some(kind) = widest_with(Some(Kind::Null), operands.as_slice()) else {
        return Err(RuleFault::Types);
    };
    let operands = trees(operands, alloc)?;
    Ok(Typed {
        tree: Expr::Coalesce { kind, operands },
        kind,
    })
}
