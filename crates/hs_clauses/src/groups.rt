// GROUP BY: which columns may stand in items and in HAVING.
ghost use Rattle.std.specs.Prelude.{◌≡◌, map, IfOk, if◌then◌else◌};
ghost use Rattle.hs_clauses.specs.Forms.{place_of, places_of};
ghost use Rattle.hs_meaning.specs.Selects as spec;
ghost use Rattle.hs_meaning.specs.Trees.{part_of};
ghost use Rattle.hs_schema.specs.Catalogue.{Things};

use hs_ast::{Expression, ExpressionKind};
use hs_base::NoMemory;
use hs_scope::{Scope, Sought};
use sqlite_items::Items;
use std::alloc::Global;

fn place_by(found: Sought) -> Option<u32>
    ensures { result ≡ spec.place_by found }
{
    match found {
        Sought::One { at, .. } => Some(at),
        Sought::Missing => None,
        Sought::Several => None,
    }
}

// The place of a column of FROM.
fn place_of(e: &Expression, tables: &Scope) -> Option<u32>
    ensures { result ≡ place_of tables.now e.now }
{
    match &e.kind {
        ExpressionKind::Column(name) => place_by(tables.find_name(name)),
        _ => None,
    }
}

fn places_of(group_by: &[Expression], tables: &Scope, alloc: Global) -> Result<Items<u32>, NoMemory>
    ensures { IfOk result (λ made. made ≡ places_of tables.now group_by.now) }
{
    let mut made = Items::new(alloc);
    for e in group_by {
        if let Some(place) = place_of(e, tables) {
            made.push(place)?;
        }
    }
    Ok(made)
}

/// The places of the columns that may stand in items and in HAVING, outside of aggregates: those that are GROUP BY expressions
/// where rows are grouped, and else all, which is None. An `Err` is want of memory.
pub fn groups_of(
    group_by: &[Expression],
    grouped: bool,
    tables: &Scope,
    alloc: Global,
) -> Result<Option<Items<u32>>, NoMemory>
    ensures { (things : Things) → IfOk result (λ made. made ≡ (if grouped then Some (spec.grouped_columns tables.now (map (part_of things) group_by.now)) else None)) }
{
    if grouped {
        Ok(Some(places_of(group_by, tables, alloc)?))
    } else {
        Ok(None)
    }
}
