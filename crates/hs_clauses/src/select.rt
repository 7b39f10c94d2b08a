// A SELECT.
ghost use Rattle.std.specs.Prelude.{◌≡◌, ◌||◌, not, map, option_map, IfOk};
ghost use Rattle.hs_clauses.specs.Plans.{clauses_by, select_by, trees_in};
ghost use Rattle.hs_clauses.specs.declared.bound.KeysOver.TheVariants as over;
ghost use Rattle.hs_meaning.specs.Parts.{tree_of};
ghost use Rattle.hs_meaning.specs.Selects as spec;

use crate::bound::{BoundBody, BoundFrom, KeysOver};
use hs_base::NoMemory;
use hs_columns::{ShownParts, part_shown};
use hs_meaning::Shown;
use hs_plan::{Expr, FromItem, QueryBody, Select};
use hs_typed::Typed;
use sqlite_items::{Boxed, Items};
use std::alloc::Global;

/// The bound parts of a SELECT. What isn't known breaks a rule.
#[derive(Drop)]
pub struct SelectParts {
    pub distinct: bool,
    /// Whether rows are grouped.
    pub grouped: bool,
    pub from: BoundFrom,
    /// That of WHERE, where it is written.
    pub condition: Option<Option<Typed>>,
    pub group_by: Option<Vec<Typed>>,
    /// That of HAVING, where it is written.
    pub having: Option<Option<Typed>>,
    /// The items, `*` written out.
    pub shown: Vec<Shown>,
}

fn boxed_tree(part: Option<Typed>, alloc: Global) -> Result<Option<Boxed<Expr>>, NoMemory>
    ensures { IfOk result (λ tree. tree ≡ tree_of part) }
{
    match part {
        Some(typed) => Ok(Some(Boxed::new(alloc, typed.tree)?)),
        None => Ok(None),
    }
}

fn trees(all: Vec<Typed>, alloc: Global) -> Result<Items<Expr>, NoMemory>
    ensures { IfOk result (λ trees. trees ≡ map (λ t. t.tree) all.items) }
{
    let mut trees = Items::new(alloc);
    for typed in all {
        trees.push(typed.tree)?;
    }
    Ok(trees)
}

// What WHERE, GROUP BY and HAVING give the plan.
#[derive(Drop)]
pub(crate) struct Clauses {
    filter: Option<Boxed<Expr>>,
    group_by: Items<Expr>,
    having: Option<Boxed<Expr>>,
}

fn filter_of(
    part: Option<Option<Typed>>,
    alloc: Global,
) -> Result<Option<Option<Boxed<Expr>>>, NoMemory>
    ensures { IfOk result (λ made. made ≡ option_map tree_of part) }
{
    match part {
        Some(part) => Ok(Some(boxed_tree(part, alloc)?)),
        None => Ok(None),
    }
}

fn group_trees(all: Option<Vec<Typed>>, alloc: Global) -> Result<Option<Items<Expr>>, NoMemory>
    ensures { IfOk result (λ made. made ≡ option_map trees_in all) }
{
    match all {
        Some(all) => Ok(Some(trees(all, alloc)?)),
        None => Ok(None),
    }
}

fn clauses_by(
    filter: Option<Option<Boxed<Expr>>>,
    group_by: Option<Items<Expr>>,
    having: Option<Option<Boxed<Expr>>>,
) -> Option<Clauses>
    ensures { result ≡ clauses_by filter group_by having }
{
    match (filter, group_by) {
        (Some(filter), Some(group_by)) => match having {
            Some(having) => Some(Clauses {
                filter,
                group_by,
                having,
            }),
            None => None,
        },
        (Some(_), None) => None,
        (None, _) => None,
    }
}

fn clauses_of(
    condition: Option<Option<Typed>>,
    group_by: Option<Vec<Typed>>,
    having: Option<Option<Typed>>,
    alloc: Global,
) -> Result<Option<Clauses>, NoMemory>
    ensures { IfOk result (λ made. made ≡ clauses_by (option_map tree_of condition) (option_map trees_in group_by) (option_map tree_of having)) }
{
    let filter = filter_of(condition, alloc)?;
    let group_by = group_trees(group_by, alloc)?;
    let having = filter_of(having, alloc)?;
    Ok(clauses_by(filter, group_by, having))
}

fn plan_of(
    distinct: bool,
    grouped: bool,
    items: Option<Items<Expr>>,
    from: Option<Items<FromItem>>,
    clauses: Option<Clauses>,
    alloc: Global,
) -> Result<Option<QueryBody>, NoMemory>
    ensures { IfOk result (λ plan. plan ≡ select_by distinct grouped items from clauses) }
{
    let Some(items) = items else {
        return Ok(None);
    };
    let Some(from) = from else {
        return Ok(None);
    };
    let Some(clauses) = clauses else {
        return Ok(None);
    };
    let select = Select {
        distinct,
        items,
        from,
        filter: clauses.filter,
        grouped,
        group_by: clauses.group_by,
        having: clauses.having,
    };
    Ok(Some(QueryBody::Select(Boxed::new(alloc, select)?)))
}

fn body_of(
    distinct: bool,
    grouped: bool,
    from: BoundFrom,
    clauses: Option<Clauses>,
    shown: Vec<Shown>,
    alloc: Global,
) -> Result<BoundBody, NoMemory>
    ensures columns { IfOk result (λ b. b.columns.items ≡ spec.columns_of shown.items) }
    ensures plan { IfOk result (λ b. b.plan ≡ select_by distinct grouped (spec.trees_of shown.items) from.items clauses) }
    ensures plain { IfOk result (λ b. b.plain ≡ not (distinct || grouped)) }
    ensures over { IfOk result (λ b. b.over ≡ over.Rows from.tables) }
{
    let ShownParts { columns, trees } = part_shown(shown, alloc)?;
    let BoundFrom { tables, items } = from;
    let plan = plan_of(distinct, grouped, trees, items, clauses, alloc)?;
    Ok(BoundBody {
        columns,
        plan,
        plain: !(distinct || grouped),
        over: KeysOver::Rows(tables),
    })
}

/// A SELECT from its bound parts. Its keys of ORDER BY see the rows of its tables. An `Err` is want of memory.
#[tactic(auto, using(crate::proofs::Steps::in_steps))]
pub fn select_body(parts: SelectParts, alloc: Global) -> Result<BoundBody, NoMemory>
    ensures columns { IfOk result (λ b. b.columns.items ≡ spec.columns_of parts.shown.items) }
    ensures plan { IfOk result (λ b. b.plan ≡ spec.plan_by parts.distinct parts.grouped (spec.trees_of parts.shown.items) parts.from.items parts.condition (option_map (λ v. v.items) parts.group_by) parts.having) }
    ensures plain { IfOk result (λ b. b.plain ≡ not (parts.distinct || parts.grouped)) }
    ensures over { IfOk result (λ b. b.over ≡ over.Rows parts.from.tables) }
{
    let SelectParts {
        distinct,
        grouped,
        from,
        condition,
        group_by,
        having,
        shown,
    } = parts;
    let clauses = clauses_of(condition, group_by, having, alloc)?;
    body_of(distinct, grouped, from, clauses, shown, alloc)
}
