// The first violated constraint of all rows.
ghost use Rattle.std.specs.Prelude.{◌≡◌, [], Some, None, IfOk, if◌then◌else◌};
ghost use Rattle.hs_sentences.specs.Asking.{any_row};
ghost use Rattle.hs_sentences.specs.Sentences.{has_gap, is_double};
ghost use Rattle.hs_sentences.specs.Violations as spec;
ghost use Rattle.hs_draft.specs.Drafted.{after};
ghost use Rattle.hs_draft.specs.Whole as whole;

use crate::check::Check;
use crate::draft::Draft;
use crate::parent::parents;
use crate::questions::{Double, Failed, Gap, Orphan};
use hs_base::{NoMemory, TableNo};
use hs_plan::{Constraint, Expr, ForeignKey, Rule};
use hs_schema::{Catalog, Part, Thing};
use hs_sentences::Violation;
use hs_values::Name;

/// The first constraint, in the order of creation, that the rows violate as they stand, and how: None where all hold.
/// All rows are looked at, and none counts as put. An `Err` is want of memory: a fault of a CHECK is a violation.
pub fn whole_violated<C: Check>(
    catalog: &Catalog,
    draft: &Draft,
    checks: &C,
) -> Result<Option<Violation>, NoMemory>
    ensures { IfOk result (λ first. first ≡ spec.first_violated (C.checks checks.now) catalog.now (λ table. []) (after draft.now)) }
{
    let all = AllRows {
        catalog,
        draft,
        checks,
    };
    all.first_of(catalog.things())
}

// All rows of a draft, with the catalogue of its tables and what evaluates CHECKs.
#[derive(Drop)]
struct AllRows<'a, C> {
    catalog: &'a Catalog,
    draft: &'a Draft,
    checks: &'a C,
}

impl<C: Check> AllRows<'_, C> {
    // The first of these things that is violated.
    #[tactic(auto, using(crate::proofs::Steps::first_step))]
    fn first_of(&self, things: &[Thing]) -> Result<Option<Violation>, NoMemory>
        ensures { IfOk result (λ first. first ≡ whole.first_in (C.checks self.now.checks.now) self.now.catalog.now (after self.now.draft.now) things.now) }
    {
        for thing in things {
            if let Some(violation) = self.violation_in(thing)? {
                return Ok(Some(violation));
            }
        }
        Ok(None)
    }

    // How a thing is violated, which a constraint alone can be.
    fn violation_in(&self, thing: &Thing) -> Result<Option<Violation>, NoMemory>
        ensures { IfOk result (λ how. how ≡ whole.violation_in (C.checks self.now.checks.now) self.now.catalog.now (after self.now.draft.now) thing.now) }
    {
        match &thing.part {
            Part::Table { .. } => Ok(None),
            Part::Column(_) => Ok(None),
            Part::Constraint(constraint) => self.violation(thing.table, constraint),
        }
    }

    // How a constraint of a table is violated.
    fn violation(
        &self,
        table: TableNo,
        constraint: &Constraint,
    ) -> Result<Option<Violation>, NoMemory>
        ensures { IfOk result (λ how. how ≡ whole.violation (C.checks self.now.checks.now) self.now.catalog.now (after self.now.draft.now) (table.0, constraint.now)) }
    {
        let name = &constraint.name;
        match &constraint.rule {
            Rule::NotNull(column) => self.null(table, name, &[*column]),
            Rule::PrimaryKey(columns) => {
                let null = self.null(table, name, columns.as_slice())?;
                if null.is_some() {
                    return Ok(null);
                }
                self.double(table, name, columns.as_slice())
            }
            Rule::Unique(columns) => self.double(table, name, columns.as_slice()),
            Rule::Check(condition) => self.failed(table, name, condition),
            Rule::ForeignKey(key) => self.orphan(table, name, key),
            Rule::Index(_) => Ok(None),
        }
    }

    fn null(
        &self,
        table: TableNo,
        name: &Name,
        columns: &[u32],
    ) -> Result<Option<Violation>, NoMemory>
        ensures { IfOk result (λ how. how ≡ (if any_row (has_gap columns.now) (after self.now.draft.now table.0) then Some (Violation.Null name.now) else None)) }
    {
        if self.draft.rows(table).any(&Gap { columns })? {
            return Ok(Some(Violation::Null(name.copy()?)));
        }
        Ok(None)
    }

    fn double(
        &self,
        table: TableNo,
        name: &Name,
        columns: &[u32],
    ) -> Result<Option<Violation>, NoMemory>
        ensures { IfOk result (λ how. how ≡ (if any_row (is_double columns.now (after self.now.draft.now table.0)) (after self.now.draft.now table.0) then Some (Violation.Unique name.now) else None)) }
    {
        let rows = self.draft.rows(table);
        if rows.any(&Double { rows, columns })? {
            return Ok(Some(Violation::Unique(name.copy()?)));
        }
        Ok(None)
    }

    fn failed(
        &self,
        table: TableNo,
        name: &Name,
        condition: &Expr,
    ) -> Result<Option<Violation>, NoMemory>
        ensures { IfOk result (λ how. how ≡ whole.rule_violation (C.checks self.now.checks.now) self.now.catalog.now (after self.now.draft.now) table.0 name.now (Rule.Check condition.now)) }
    {
        let checks = self.checks;
        if self.draft.rows(table).any(&Failed { checks, condition })? {
            return Ok(Some(Violation::Check(name.copy()?)));
        }
        Ok(None)
    }

    fn orphan(
        &self,
        table: TableNo,
        name: &Name,
        key: &ForeignKey,
    ) -> Result<Option<Violation>, NoMemory>
        ensures { IfOk result (λ how. how ≡ whole.rule_violation (C.checks self.now.checks.now) self.now.catalog.now (after self.now.draft.now) table.0 name.now (Rule.ForeignKey key.now)) }
    {
        let orphan = Orphan {
            columns: key.columns.as_slice(),
            parent_columns: key.parent_columns.as_slice(),
            parents: parents(self.draft, self.catalog, key),
        };
        if self.draft.rows(table).any(&orphan)? {
            return Ok(Some(Violation::Child(name.copy()?)));
        }
        Ok(None)
    }
}
