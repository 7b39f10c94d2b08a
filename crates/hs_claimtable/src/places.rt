// Who holds claims on which resources.
ghost use Rattle.std.specs.Prelude.{◌≡◌, ◌==◌, ◌&&◌, ◌||◌, ℕ, not, false, Bool, List, OnOk, IfOk};
ghost use Rattle.std.specs.List.{list_any};
ghost use Rattle.std.specs.Ordering.{is_eq};
ghost use Rattle.hs_claims.specs.Blockers.{has};
ghost use Rattle.hs_claims.specs.Compatible.{same_resource, same_key};
ghost use Rattle.hs_claims.specs.Session.{IsSession};
ghost use Rattle.hs_claims.specs.declared.resource.Resource.{Resource as TheResource};
ghost use Rattle.hs_values.specs.declared.value.Value.{Value};
ghost use Rattle.hs_values.specs.Order.{row_order_of};
ghost use Rattle.hs_claimtable.specs.declared.places.KeyOwner.{KeyOwner as TheOwner};
ghost use Rattle.hs_claimtable.specs.Marks.{is_marked, marks_at as marks_in_map};
ghost use Rattle.hs_claimtable.specs.Places.{marks_of, owner_cmp, key_marks, counts, is_on, is_held, IsMarked, IsUnmarked};

use crate::marks::{Marks, mark, marks_at, unmark};
use hs_base::{ConstraintNo, NoMemory, RowName, RowNo, SessionNo, TableNo};
use hs_claims::{Blockers, Claim, Resource};
use hs_values::Row;
use std::alloc::Global;
use std::collections::BTreeMap;

/// Whose keys they are.
#[derive(Clone, Copy, Debug, PartialEq, Eq, PartialOrd, Ord)]
pub(crate) struct KeyOwner {
    pub table: TableNo,
    pub constraint: ConstraintNo,
}

/// The marks of each resource.
#[derive(Drop)]
pub(crate) struct Places {
    pub catalog: Marks,
    pub tables: BTreeMap<TableNo, Marks>,
    pub rows: BTreeMap<RowName, Marks>,
    pub keys: BTreeMap<KeyOwner, BTreeMap<Row, Marks>>,
    alloc: Global,
}

impl Places {
    /// Nobody holds a claim. Takes no memory.
    pub fn new(alloc: Global) -> Places
        ensures { (only : Bool) (r : TheResource) (s : ℕ) → is_marked only (marks_of result r) s ≡ false }
    {
        Places {
            catalog: Marks::none(),
            tables: BTreeMap::new(alloc),
            rows: BTreeMap::new(alloc),
            keys: BTreeMap::new(alloc),
            alloc,
        }
    }

    /// The marks of a resource.
    pub fn marks(&self, resource: &Resource) -> Marks
        ensures { result ≡ marks_of self.now resource.now }
    {
        match resource {
            Resource::Catalog => self.catalog,
            Resource::Table(table) => marks_at(&self.tables, table),
            Resource::Row(table, row) => marks_at(&self.rows, &row_name(*table, *row)),
            Resource::Key(table, constraint, values) => {
                key_marks_at(&self.keys, &owner(*table, *constraint), values)
            }
        }
    }

    /// Marks the resources of these claims, which a session gets. An `Err` is want of memory; then some are marked.
    pub fn mark_all(&mut self, session: SessionNo, claims: &[Claim]) -> Result<(), NoMemory>
        requires { IsSession session.0 }
        ensures { OnOk result ((only : Bool) (r : TheResource) (s : ℕ) → IsSession s → is_marked only (marks_of self.new r) s ≡ ((list_any (counts only r) claims.now && (s == session.0)) || is_marked only (marks_of self.old r) s)) }
    {
        for claim in claims {
            self.mark(session, claim)?;
        }
        Ok(())
    }

    /// Takes the marks of a session from the resources of these claims. Takes no memory.
    pub fn unmark_all(&mut self, session: SessionNo, claims: &[Claim])
        requires { IsSession session.0 }
        ensures { (only : Bool) (r : TheResource) (s : ℕ) → IsSession s → is_marked only (marks_of self.new r) s ≡ (not (list_any (is_on r) claims.now && (s == session.0)) && is_marked only (marks_of self.old r) s) }
    {
        for claim in claims {
            self.unmark(session, &claim.resource);
        }
    }

    /// Those who hold a claim that doesn't go together with one of these. Takes no memory.
    pub fn against(&self, wants: &[Claim]) -> Blockers
        ensures { (s : ℕ) → has result s ≡ list_any (is_held self.now s) wants.now }
    {
        let mut found = Blockers(0);
        for want in wants {
            let there = self.marks(&want.resource);
            found = either(found, there.against(want.exclusive));
        }
        found
    }

    fn mark(&mut self, session: SessionNo, claim: &Claim) -> Result<(), NoMemory>
        requires { IsSession session.0 }
        ensures { OnOk result (IsMarked self.old self.new session.0 claim.now) }
    {
        let exclusive = claim.exclusive;
        match &claim.resource {
            Resource::Catalog => {
                self.catalog = self.catalog.with(session, exclusive);
                Ok(())
            }
            Resource::Table(table) => mark(&mut self.tables, *table, session, exclusive),
            Resource::Row(table, row) => {
                mark(&mut self.rows, row_name(*table, *row), session, exclusive)
            }
            Resource::Key(table, constraint, values) => {
                let place = owner(*table, *constraint);
                let values = values.copy()?;
                mark_key(
                    &mut self.keys,
                    self.alloc,
                    place,
                    values,
                    session,
                    exclusive,
                )
            }
        }
    }

    fn unmark(&mut self, session: SessionNo, resource: &Resource)
        requires { IsSession session.0 }
        ensures { IsUnmarked self.old self.new session.0 resource.now }
    {
        match resource {
            Resource::Catalog => self.catalog = self.catalog.without(session),
            Resource::Table(table) => unmark(&mut self.tables, table, session),
            Resource::Row(table, row) => {
                unmark(&mut self.rows, &row_name(*table, *row), session);
            }
            Resource::Key(table, constraint, values) => {
                unmark_key(&mut self.keys, owner(*table, *constraint), values, session);
            }
        }
    }
}

fn row_name(table: TableNo, row: RowNo) -> RowName
    ensures { result ≡ record { table = table; row = row } }
{
    RowName { table, row }
}

fn owner(table: TableNo, constraint: ConstraintNo) -> KeyOwner
    ensures { result ≡ record { table = table; constraint = constraint } }
{
    KeyOwner { table, constraint }
}

// The sessions that are in one set or in the other.
fn either(a: Blockers, b: Blockers) -> Blockers
    ensures { (s : ℕ) → has result s ≡ (has a s || has b s) }
{
    Blockers(a.0 | b.0)
}

// The marks of a key of a constraint.
fn key_marks_at(
    keys: &BTreeMap<KeyOwner, BTreeMap<Row, Marks>>,
    place: &KeyOwner,
    values: &Row,
) -> Marks
    ensures { result ≡ key_marks keys.now place.now values.now }
{
    match keys.get(place) {
        Some(held) => marks_at(held, values),
        None => Marks::none(),
    }
}

// Marks a key of a constraint. An `Err` is want of memory.
fn mark_key(
    keys: &mut BTreeMap<KeyOwner, BTreeMap<Row, Marks>>,
    alloc: Global,
    place: KeyOwner,
    values: Row,
    session: SessionNo,
    exclusive: bool,
) -> Result<(), NoMemory>
    requires { IsSession session.0 }
    ensures { OnOk result ((only : Bool) (o : TheOwner) (v : List Value) (s : ℕ) → IsSession s → is_marked only (key_marks keys.new o v) s ≡ ((is_eq (owner_cmp place o) && same_key values v && (not only || exclusive) && (s == session.0)) || is_marked only (key_marks keys.old o v) s)) }
{
    if let Some(held) = keys.get_mut(&place) {
        return mark(held, values, session, exclusive);
    }
    let first = first_key(alloc, values, session, exclusive)?;
    keys.insert(place, first)?;
    Ok(())
}

// The marks of the first key of a constraint.
fn first_key(
    alloc: Global,
    values: Row,
    session: SessionNo,
    exclusive: bool,
) -> Result<BTreeMap<Row, Marks>, NoMemory>
    requires { IsSession session.0 }
    ensures { IfOk result (λ keys. (only : Bool) (v : List Value) (s : ℕ) → IsSession s → is_marked only (marks_in_map row_order_of keys v) s ≡ (same_key values v && (not only || exclusive) && (s == session.0))) }
{
    let mut keys = BTreeMap::new(alloc);
    mark(&mut keys, values, session, exclusive)?;
    Ok(keys)
}

// Takes the marks of a session from a key. The map of its constraint stays, also where no key is left in it.
fn unmark_key(
    keys: &mut BTreeMap<KeyOwner, BTreeMap<Row, Marks>>,
    place: KeyOwner,
    values: &Row,
    session: SessionNo,
)
    requires { IsSession session.0 }
    ensures { (only : Bool) (o : TheOwner) (v : List Value) (s : ℕ) → IsSession s → is_marked only (key_marks keys.new o v) s ≡ (not (is_eq (owner_cmp place o) && same_key values.now v && (s == session.0)) && is_marked only (key_marks keys.old o v) s) }
{
    if let Some(held) = keys.get_mut(&place) {
        unmark(held, values, session);
    }
}
