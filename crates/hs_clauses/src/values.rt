// VALUES, row by row.
ghost use Rattle.std.specs.Prelude.{◌≡◌, ◌==◌, true, [], length, map, IfOk, OnOk, None, Some};
ghost use Rattle.std.specs.List.{list_all};
ghost use Rattle.hs_clauses.specs.Forms.{column_above, columns_above, have_one_length, values_in};
ghost use Rattle.hs_clauses.specs.declared.bound.KeysOver.TheVariants as over;
ghost use Rattle.hs_meaning.specs.Expressions.{kinds_of};
ghost use Rattle.hs_meaning.specs.Parts.{with_part};
ghost use Rattle.hs_meaning.specs.Queries as spec;
ghost use Rattle.hs_meaning.specs.Selects.{columns_of, trees_of};
ghost use Rattle.hs_meaning.specs.Trees.{row_of};
ghost use Rattle.hs_schema.specs.Catalogue.{Things};
ghost use Rattle.hs_typed.specs.Faults.{noted};

use crate::bound::{BoundBody, KeysOver};
use hs_ast::Expression;
use hs_base::NoMemory;
use hs_columns::{forget_kinds, kinds_of, note_clashes, pair, part_shown, with_part};
use hs_meaning::{PlacedColumn, Shown};
use hs_plan::{Expr, Kind, QueryBody, ValuesRow};
use hs_scope::OutputColumn;
use hs_typed::Faults;
use sqlite_items::Items;
use std::alloc::Global;

/// The rows so far, and their columns, of which no more is known than that.
#[derive(Drop)]
pub struct BoundRows {
    pub columns: Vec<PlacedColumn>,
    /// None where one of them breaks a rule.
    pub rows: Option<Items<ValuesRow>>,
}

// Whether all rows have so many values.
fn have_length(rows: &[hs_ast::ValuesRow], many: usize) -> bool
    ensures { result ≡ list_all (λ row. length (values_in row) == many) rows.now }
{
    rows.iter().all(|row| row.values.len() == many)
}

// Whether all rows have as many values as the first one.
fn have_one_length(rows: &[hs_ast::ValuesRow]) -> bool
    ensures { result ≡ have_one_length rows.now }
{
    match rows.first() {
        Some(first) => have_length(rows, first.values.len()),
        None => true,
    }
}

/// Whether all rows have as many values as the first one.
pub fn are_even(rows: &[hs_ast::ValuesRow]) -> bool
    ensures { (things : Things) → result ≡ spec.are_even (map (row_of things) rows.now) }
{
    have_one_length(rows)
}

fn columns_over(values: &[Expression], alloc: Global) -> Result<Vec<PlacedColumn>, NoMemory>
    ensures { IfOk result (λ made. made.items ≡ map column_above values.now) }
{
    let mut made = Vec::new(alloc);
    for value in values {
        let column = OutputColumn {
            name: None,
            kind: Some(Kind::Null),
        };
        made.push(PlacedColumn {
            at: value.at,
            column,
        })?;
    }
    Ok(made)
}

fn columns_above(rows: &[hs_ast::ValuesRow], alloc: Global) -> Result<Vec<PlacedColumn>, NoMemory>
    ensures { IfOk result (λ made. made.items ≡ columns_above rows.now) }
{
    match rows.first() {
        Some(first) => columns_over(first.values.as_slice(), alloc),
        None => Ok(Vec::new(alloc)),
    }
}

/// What stands above the first row: its columns, each NULL alone, and no rows. An `Err` is want of memory.
pub fn no_rows(rows: &[hs_ast::ValuesRow], alloc: Global) -> Result<BoundRows, NoMemory>
    ensures columns { (things : Things) → IfOk result (λ r. r.columns.items ≡ spec.above (map (row_of things) rows.now)) }
    ensures rows { IfOk result (λ r. r.rows ≡ Some []) }
{
    let columns = columns_above(rows, alloc)?;
    Ok(BoundRows {
        columns,
        rows: Some(Items::new(alloc)),
    })
}

fn row_by(trees: Option<Items<Expr>>) -> Option<ValuesRow>
    ensures { result ≡ spec.row_by trees }
{
    match trees {
        Some(values) => Some(ValuesRow { values }),
        None => None,
    }
}

/// The next row, with its bound values. A column that no kind holds together with the one above it is noted as a fault of
/// types at its value. An `Err` is want of memory.
pub fn add_row(
    rows: BoundRows,
    shown: Vec<Shown>,
    faults: &mut Faults,
    alloc: Global,
) -> Result<BoundRows, NoMemory>
    ensures columns { IfOk result (λ r. r.columns.items ≡ spec.paired rows.columns.items (columns_of shown.items)) }
    ensures rows { IfOk result (λ r. r.rows ≡ with_part rows.rows (spec.row_by (trees_of shown.items))) }
    ensures noted { OnOk result (faults.new ≡ noted faults.old (spec.clashes rows.columns.items (columns_of shown.items))) }
{
    let here = part_shown(shown, alloc)?;
    let mut columns = rows.columns;
    note_clashes(&columns, &here.columns, faults);
    pair(&mut columns, &here.columns);
    Ok(BoundRows {
        columns,
        rows: with_part(rows.rows, row_by(here.trees))?,
    })
}

fn values_by(kinds: Option<Items<Kind>>, rows: Option<Items<ValuesRow>>) -> Option<QueryBody>
    ensures { result ≡ spec.values_by kinds rows }
{
    match (kinds, rows) {
        (Some(kinds), Some(rows)) => Some(QueryBody::Values { kinds, rows }),
        (Some(_), None) => None,
        (None, _) => None,
    }
}

/// VALUES from all its rows, which have equal numbers of values. An `Err` is want of memory.
pub fn even_values(rows: BoundRows, alloc: Global) -> Result<BoundBody, NoMemory>
    ensures columns { IfOk result (λ b. b.columns.items ≡ rows.columns.items) }
    ensures plan { IfOk result (λ b. b.plan ≡ spec.values_by (kinds_of rows.columns.items) rows.rows) }
    ensures plain { IfOk result (λ b. b.plain ≡ true) }
    ensures over { IfOk result (λ b. b.over ≡ over.Values) }
{
    let kinds = kinds_of(&rows.columns, alloc)?;
    Ok(BoundBody {
        columns: rows.columns,
        plan: values_by(kinds, rows.rows),
        plain: true,
        over: KeysOver::Values,
    })
}

fn unknown_columns(rows: &[hs_ast::ValuesRow], alloc: Global) -> Result<Vec<PlacedColumn>, NoMemory>
    ensures { IfOk result (λ made. made.items ≡ spec.unknown (columns_above rows.now)) }
{
    let mut columns = columns_above(rows, alloc)?;
    forget_kinds(&mut columns);
    Ok(columns)
}

/// VALUES whose rows have different numbers of values, of which nothing is known. An `Err` is want of memory.
pub fn uneven_values(rows: &[hs_ast::ValuesRow], alloc: Global) -> Result<BoundBody, NoMemory>
    ensures columns { (things : Things) → IfOk result (λ b. b.columns.items ≡ spec.unknown (spec.above (map (row_of things) rows.now))) }
    ensures plan { IfOk result (λ b. b.plan ≡ None) }
    ensures plain { IfOk result (λ b. b.plain ≡ true) }
    ensures over { IfOk result (λ b. b.over ≡ over.Values) }
{
    let columns = unknown_columns(rows, alloc)?;
    Ok(BoundBody {
        columns,
        plan: None,
        plain: true,
        over: KeysOver::Values,
    })
}
