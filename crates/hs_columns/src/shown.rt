// Items of SELECT and values of VALUES, each apart: its column and its tree.
ghost use Rattle.std.specs.Prelude.{◌≡◌, IfOk};
ghost use Rattle.hs_meaning.specs.Parts.{tree_of};
ghost use Rattle.hs_meaning.specs.Selects.{columns_of, kind_of, trees_of};

use crate::known::with_part;
use hs_base::NoMemory;
use hs_meaning::{PlacedColumn, Shown};
use hs_plan::{Expr, Kind};
use hs_scope::OutputColumn;
use hs_typed::Typed;
use sqlite_items::Items;
use std::alloc::Global;

/// The columns of what is shown, and the trees, None where one of them isn't known.
#[derive(Drop)]
pub struct ShownParts {
    pub columns: Vec<PlacedColumn>,
    pub trees: Option<Items<Expr>>,
}

fn part_typed(part: Option<Typed>) -> (Option<Kind>, Option<Expr>)
    ensures kind { result.0 ≡ kind_of part }
    ensures tree { result.1 ≡ tree_of part }
{
    match part {
        Some(typed) => (Some(typed.kind), Some(typed.tree)),
        None => (None, None),
    }
}

/// The columns of what is shown, and the trees. An `Err` is want of memory.
pub fn part_shown(shown: Vec<Shown>, alloc: Global) -> Result<ShownParts, NoMemory>
    ensures columns { IfOk result (λ parts. parts.columns.items ≡ columns_of shown.items) }
    ensures trees { IfOk result (λ parts. parts.trees ≡ trees_of shown.items) }
{
    let mut columns = Vec::new(alloc);
    let mut trees = Some(Items::new(alloc));
    for one in shown {
        let (kind, tree) = part_typed(one.part);
        let column = OutputColumn {
            name: one.name,
            kind,
        };
        columns.push(PlacedColumn { at: one.at, column })?;
        trees = with_part(trees, tree)?;
    }
    Ok(ShownParts { columns, trees })
}
