// Whether a definition can be made of a catalogue.
ghost use Rattle.std.specs.Prelude.{◌≡◌, ◌<◌, ◌≤◌, ◌↔◌, IsTrue, None, is_some, map};
ghost use Rattle.std.specs.List.{All, IsDistinct, list_any};
ghost use Rattle.std.specs.Str.{bytes_eq};
ghost use Rattle.hs_schema.specs.Catalogue as spec;

use super::Catalog;
use hs_plan::{Constraint, Definition};

impl Catalog {
    /// Whether a definition fits: the tables, constraints and indexes that it changes are there, and the names of those
    /// that it makes are free and differ. Looks up each name once, and compares the new names with one another.
    pub fn is_bound(&self, d: &Definition) -> bool
        ensures { IsTrue result ↔ spec.IsBound self.now d.now }
    {
        match d {
            Definition::CreateTable {
                name,
                constraints,
                ..
            } => !self.has_table(name.as_str()) && self.are_new(constraints.as_slice()),
            Definition::DropTable(name) => self.has_table(name.as_str()),
            Definition::AddColumn {
                table,
                constraints,
                ..
            } => self.has_table(table.as_str()) && self.are_new(constraints.as_slice()),
            Definition::AddConstraint { table, constraint } => {
                self.has_table(table.as_str()) && self.is_free(constraint.name.as_str())
            }
            Definition::DropConstraint { table, name } => {
                self.has_table(table.as_str()) && self.is_own(table.as_str(), name.as_str())
            }
            Definition::CreateIndex { table, name, .. } => {
                self.has_table(table.as_str()) && self.is_free(name.as_str())
            }
            Definition::DropIndex(name) => !self.is_free(name.as_str()),
            Definition::SetControl(_) | Definition::SetDefaultLevel { .. } => true,
        }
    }

    /// Whether a definition can have this change number: no thing has a greater one, nor the same one where the
    /// definition makes a table.
    pub fn is_next(&self, d: &Definition, number: u64) -> bool
        ensures { IsTrue result ↔ spec.IsNext self.now d.now number }
    {
        match d {
            Definition::CreateTable { .. } => self.are_below(number),
            Definition::DropTable(_)
            | Definition::AddColumn { .. }
            | Definition::AddConstraint { .. }
            | Definition::DropConstraint { .. }
            | Definition::CreateIndex { .. }
            | Definition::DropIndex(_)
            | Definition::SetControl(_)
            | Definition::SetDefaultLevel { .. } => self.are_up_to(number),
        }
    }

    // Whether each thing has a number below this one.
    fn are_below(&self, number: u64) -> bool
        ensures { IsTrue result ↔ All (λ t. t.number < number) self.now }
    {
        match self.things.last() {
            Some(last) => last.number < number,
            None => true,
        }
    }

    // Whether no thing has a number above this one.
    fn are_up_to(&self, number: u64) -> bool
        ensures { IsTrue result ↔ All (λ t. t.number ≤ number) self.now }
    {
        match self.things.last() {
            Some(last) => last.number <= number,
            None => true,
        }
    }

    fn has_table(&self, name: &str) -> bool
        ensures { result ≡ is_some (spec.number_of self.now name.now) }
    {
        self.number_of(name).is_some()
    }

    // Whether no constraint or index has this name.
    fn is_free(&self, name: &str) -> bool
        ensures { IsTrue result ↔ (spec.owner_of self.now name.now ≡ None) }
    {
        self.owner_of(name).is_none()
    }

    // Whether the table has a constraint or an index of this name.
    fn is_own(&self, table: &str, name: &str) -> bool
        ensures { IsTrue result ↔ (spec.owner_of self.now name.now ≡ spec.number_of self.now table.now) }
    {
        self.owner_of(name) == self.number_of(table)
    }

    // Whether the names of constraints are free and differ.
    fn are_new(&self, constraints: &[Constraint]) -> bool
        ensures { IsTrue result ↔ spec.AreNew self.now constraints.now }
    {
        are_distinct(constraints) && self.are_free(constraints)
    }

    fn are_free(&self, constraints: &[Constraint]) -> bool
        ensures { IsTrue result ↔ All (λ c. spec.owner_of self.now c.name ≡ None) constraints.now }
    {
        for constraint in constraints {
            if !self.is_free(constraint.name.as_str()) {
                return false;
            }
        }
        true
    }
}

// Whether the names of constraints differ.
fn are_distinct(constraints: &[Constraint]) -> bool
    ensures { IsTrue result ↔ IsDistinct bytes_eq (map (λ c. c.name) constraints.now) }
{
    let [first, rest @ ..] = constraints else {
        return true;
    };
    !is_among(rest, first.name.as_str()) && are_distinct(rest)
}

fn is_among(constraints: &[Constraint], name: &str) -> bool
    ensures { result ≡ list_any (λ c. bytes_eq name.now c.name) constraints.now }
{
    constraints
        .iter()
        .any(|constraint| name == constraint.name.as_str())
}
