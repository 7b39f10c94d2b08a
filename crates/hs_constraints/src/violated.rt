// The first violated constraint.
ghost use Rattle.std.specs.Prelude.{◌≡◌, None, Some, IfOk, if◌then◌else◌};
ghost use Rattle.hs_rel.specs.Outcome.{IsNoVerdict, stop_of};
ghost use Rattle.hs_constraints.specs.Asking.{Asks};
ghost use Rattle.hs_constraints.specs.Changed as spec;

use crate::rows::ChangedRows;
use hs_base::TableNo;
use hs_plan::{Constraint, ForeignKey, Rule};
use hs_rel::EvalStop;
use hs_schema::{Catalog, Part, Thing};
use hs_sentences::Violation;
use hs_values::Name;

/// The first constraint, in the order of creation, that the rows violate after their changes, and how: None where all
/// hold. The changed rows are asked alone. Where every row that isn't one of them is as it was, and all constraints
/// held before, the answer is that of all rows. An `Err` is a stop of the store, or want of memory: a fault
/// of a CHECK is a violation.
pub fn first_violated<R: ChangedRows>(
    catalog: &Catalog,
    rows: &mut R,
) -> Result<Option<Violation>, EvalStop>
    requires ready { R.ready rows.old }
    requires catalogue { (R.changed rows.old).things ≡ catalog.now }
    ensures answer { R.tells rows.old → IfOk result (λ first. first ≡ spec.first_violated (R.changed rows.old)) }
    ensures whole { R.tells rows.old → spec.HeldBefore (R.changed rows.old) → IfOk result (λ first. first ≡ spec.first_of_all (R.changed rows.old)) }
    ensures err { IsNoVerdict result }
    ensures asks { Asks R.ChangedRows (stop_of result) rows.old rows.new }
{
    first_of(catalog.things(), rows)
}

// The first of these things, which are all of the catalogue, that is violated.
#[tactic(auto, using(crate::proofs::Steps::first_step))]
fn first_of<R: ChangedRows>(things: &[Thing], rows: &mut R) -> Result<Option<Violation>, EvalStop>
    requires ready { R.ready rows.old }
    requires catalogue { (R.changed rows.old).things ≡ things.now }
    ensures answer { R.tells rows.old → IfOk result (λ first. first ≡ spec.first_violated (R.changed rows.old)) }
    ensures err { IsNoVerdict result }
    ensures asks { Asks R.ChangedRows (stop_of result) rows.old rows.new }
{
    for thing in things {
        if let Some(violation) = violation_in(rows, thing)? {
            return Ok(Some(violation));
        }
    }
    Ok(None)
}

// How a thing is violated, which a constraint alone can be.
fn violation_in<R: ChangedRows>(rows: &mut R, thing: &Thing) -> Result<Option<Violation>, EvalStop>
    requires { R.ready rows.old }
    ensures answer { R.tells rows.old → IfOk result (λ how. how ≡ spec.violation_in (R.changed rows.old) thing.now) }
    ensures err { IsNoVerdict result }
    ensures asks { Asks R.ChangedRows (stop_of result) rows.old rows.new }
{
    match &thing.part {
        Part::Table { .. } => Ok(None),
        Part::Column(_) => Ok(None),
        Part::Constraint(constraint) => violation(rows, thing.table, constraint),
    }
}

// How a constraint of a table is violated.
fn violation<R: ChangedRows>(
    rows: &mut R,
    table: TableNo,
    constraint: &Constraint,
) -> Result<Option<Violation>, EvalStop>
    requires { R.ready rows.old }
    ensures answer { R.tells rows.old → IfOk result (λ how. how ≡ spec.violation (R.changed rows.old) table.0 constraint.now.name constraint.now.rule) }
    ensures err { IsNoVerdict result }
    ensures asks { Asks R.ChangedRows (stop_of result) rows.old rows.new }
{
    let name = &constraint.name;
    match &constraint.rule {
        Rule::NotNull(column) => not_null(rows, table, name, *column),
        Rule::PrimaryKey(columns) => primary_key(rows, table, name, columns.as_slice()),
        Rule::Unique(columns) => unique(rows, table, name, columns.as_slice()),
        Rule::Check(condition) => {
            if rows.has_failed(table, condition)? {
                return Ok(Some(Violation::Check(name.copy()?)));
            }
            Ok(None)
        }
        Rule::ForeignKey(key) => foreign_key(rows, table, name, key),
        Rule::Index(_) => Ok(None),
    }
}

fn not_null<R: ChangedRows>(
    rows: &mut R,
    table: TableNo,
    name: &Name,
    column: u32,
) -> Result<Option<Violation>, EvalStop>
    requires { R.ready rows.old }
    ensures answer { R.tells rows.old → IfOk result (λ how. how ≡ spec.violation (R.changed rows.old) table.0 name.now (Rule.NotNull column)) }
    ensures err { IsNoVerdict result }
    ensures asks { Asks R.ChangedRows (stop_of result) rows.old rows.new }
{
    if rows.has_gap(table, &[column])? {
        return Ok(Some(Violation::Null(name.copy()?)));
    }
    Ok(None)
}

fn primary_key<R: ChangedRows>(
    rows: &mut R,
    table: TableNo,
    name: &Name,
    columns: &[u32],
) -> Result<Option<Violation>, EvalStop>
    requires { R.ready rows.old }
    ensures answer { R.tells rows.old → IfOk result (λ how. how ≡ spec.violation (R.changed rows.old) table.0 name.now (Rule.PrimaryKey columns.now)) }
    ensures err { IsNoVerdict result }
    ensures asks { Asks R.ChangedRows (stop_of result) rows.old rows.new }
{
    if rows.has_gap(table, columns)? {
        return Ok(Some(Violation::Null(name.copy()?)));
    }
    unique(rows, table, name, columns)
}

fn unique<R: ChangedRows>(
    rows: &mut R,
    table: TableNo,
    name: &Name,
    columns: &[u32],
) -> Result<Option<Violation>, EvalStop>
    requires { R.ready rows.old }
    ensures answer { R.tells rows.old → IfOk result (λ how. how ≡ spec.violation (R.changed rows.old) table.0 name.now (Rule.Unique columns.now)) }
    ensures err { IsNoVerdict result }
    ensures asks { Asks R.ChangedRows (stop_of result) rows.old rows.new }
{
    if rows.has_double(table, columns)? {
        return Ok(Some(Violation::Unique(name.copy()?)));
    }
    Ok(None)
}

fn foreign_key<R: ChangedRows>(
    rows: &mut R,
    table: TableNo,
    name: &Name,
    key: &ForeignKey,
) -> Result<Option<Violation>, EvalStop>
    requires { R.ready rows.old }
    ensures answer { R.tells rows.old → IfOk result (λ how. how ≡ spec.violation (R.changed rows.old) table.0 name.now (Rule.ForeignKey key.now)) }
    ensures err { IsNoVerdict result }
    ensures asks { Asks R.ChangedRows (stop_of result) rows.old rows.new }
{
    if rows.has_orphan(table, key)? {
        return Ok(Some(Violation::Parent(name.copy()?)));
    }
    lost_parent(rows, table, name, key)
}

fn lost_parent<R: ChangedRows>(
    rows: &mut R,
    table: TableNo,
    name: &Name,
    key: &ForeignKey,
) -> Result<Option<Violation>, EvalStop>
    requires { R.ready rows.old }
    ensures answer { R.tells rows.old → IfOk result (λ how. how ≡ (if spec.is_left (R.changed rows.old) table.0 key.now then Some (Violation.Child name.now) else None)) }
    ensures err { IsNoVerdict result }
    ensures asks { Asks R.ChangedRows (stop_of result) rows.old rows.new }
{
    if rows.has_left(table, key)? {
        return Ok(Some(Violation::Child(name.copy()?)));
    }
    Ok(None)
}
