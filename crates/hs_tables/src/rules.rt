// What one constraint of a definition asks.
ghost use Rattle.std.specs.Prelude.{◌≡◌};
ghost use Rattle.hs_meaning.specs.Parts.{broken_at, of_one, part_by};
ghost use Rattle.hs_meaning.specs.Statements.{check_meaning};
ghost use Rattle.hs_outlines.specs.Outline.{seen as outlined};
ghost use Rattle.hs_meaning.specs.Finding.{Finds};
ghost use Rattle.hs_tables.specs.Rules as spec;
ghost use Rattle.hs_tables.specs.Site.{seen};
ghost use Rattle.hs_typed.specs.Faults.{noted};
ghost use Rattle.hs_typed.specs.Rules.{condition_typed};

use crate::site::Site;
use hs_ast::{ColumnRule, Expression, ForeignKey, Identifier, TableRule};
use hs_base::NoMemory;
use hs_binding::Binder;
use hs_meaning::{Surroundings, note_types};
use hs_outlines::{Outline, foreign_key, note_repeated, note_unknown, place_in, places_in};
use hs_plan::Rule;
use hs_schema::Catalog;
use hs_scope::Scope;
use hs_typed::{Faults, Typed, bind_condition};
use sqlite_items::Items;
use std::alloc::Global;
use std::slice::from_ref;

fn not_null(
    own: &Outline<'_>,
    name: &Identifier,
    faults: &mut Faults,
) -> Result<Option<Rule>, NoMemory>
    ensures { Finds (spec.not_null (outlined own.now) name.now) faults.old faults.new result }
{
    match place_in(own.names, name.name.as_str())? {
        Some(place) => Ok(Some(Rule::NotNull(place))),
        None => Ok(None),
    }
}

// The places of a key's columns.
fn over_columns(
    own: &Outline<'_>,
    list: &[Identifier],
    faults: &mut Faults,
    alloc: Global,
) -> Result<Option<Items<u32>>, NoMemory>
    ensures { Finds (spec.over_columns (outlined own.now) list.now) faults.old faults.new result }
{
    note_unknown(own.names, list, faults, alloc)?;
    note_repeated(list, faults, alloc)?;
    places_in(own.names, list, alloc)
}

fn primary_key(
    own: &Outline<'_>,
    list: &[Identifier],
    faults: &mut Faults,
    alloc: Global,
) -> Result<Option<Rule>, NoMemory>
    ensures { Finds (spec.primary_key (outlined own.now) list.now) faults.old faults.new result }
{
    match over_columns(own, list, faults, alloc)? {
        Some(columns) => Ok(Some(Rule::PrimaryKey(columns))),
        None => Ok(None),
    }
}

fn unique(
    own: &Outline<'_>,
    list: &[Identifier],
    faults: &mut Faults,
    alloc: Global,
) -> Result<Option<Rule>, NoMemory>
    ensures { Finds (spec.unique (outlined own.now) list.now) faults.old faults.new result }
{
    match over_columns(own, list, faults, alloc)? {
        Some(columns) => Ok(Some(Rule::Unique(columns))),
        None => Ok(None),
    }
}

// What stands behind CHECK, at byte `at`. None where it isn't known, and where it is no BOOLEAN, which is noted.
fn condition(at: u32, a: Option<Typed>, faults: &mut Faults) -> Option<Typed>
    ensures part { result ≡ part_by (of_one condition_typed a) }
    ensures noted { faults.new ≡ noted faults.old (broken_at at (of_one condition_typed a)) }
{
    match bind_condition(a?) {
        Ok(a) => Some(a),
        Err(_) => {
            note_types(at, faults);
            None
        }
    }
}

// The expression of a CHECK, which is a condition without queries, so that no catalogue counts.
fn checked<B: Binder>(
    binder: &B,
    scope: &Scope,
    e: &Expression,
    faults: &mut Faults,
    alloc: Global,
) -> Result<Option<Typed>, NoMemory>
    ensures { Finds (check_meaning scope.now e.now) faults.old faults.new result }
{
    let outermost = Surroundings::outermost();
    let rows = Surroundings::over_rows(scope, &outermost);
    let around = rows.in_check();
    let none = Catalog::new(alloc);
    let part = binder.expression(e, &around, &none, faults, alloc)?;
    Ok(condition(e.at, part, faults))
}

fn check<B: Binder>(
    binder: &B,
    scope: &Scope,
    e: &Expression,
    faults: &mut Faults,
    alloc: Global,
) -> Result<Option<Rule>, NoMemory>
    ensures { Finds (spec.check scope.now e.now) faults.old faults.new result }
{
    match checked(binder, scope, e, faults, alloc)? {
        Some(a) => Ok(Some(Rule::Check(a.tree))),
        None => Ok(None),
    }
}

// A foreign key in an element at byte `at`.
fn reference(
    site: &Site<'_>,
    at: u32,
    list: &[Identifier],
    key: &ForeignKey,
    faults: &mut Faults,
    alloc: Global,
) -> Result<Option<Rule>, NoMemory>
    ensures { Finds (spec.reference (seen site.now) at list.now key.now) faults.old faults.new result }
{
    match foreign_key(site.catalog, at, &site.own, list, key, faults, alloc)? {
        Some(key) => Ok(Some(Rule::ForeignKey(key))),
        None => Ok(None),
    }
}

/// What a constraint of a column asks, with what is wrong in it noted. An `Err` is want of memory.
pub fn column_rule<B: Binder>(
    binder: &B,
    site: &Site<'_>,
    name: &Identifier,
    rule: &ColumnRule,
    faults: &mut Faults,
    alloc: Global,
) -> Result<Option<Rule>, NoMemory>
    ensures { Finds (spec.column_rule (seen site.now) name.now rule.now) faults.old faults.new result }
{
    match rule {
        ColumnRule::NotNull => not_null(&site.own, name, faults),
        ColumnRule::PrimaryKey => primary_key(&site.own, from_ref(name), faults, alloc),
        ColumnRule::Unique => unique(&site.own, from_ref(name), faults, alloc),
        ColumnRule::Check(e) => check(binder, site.scope, e, faults, alloc),
        ColumnRule::References(key) => {
            reference(site, name.at, from_ref(name), key, faults, alloc)
        }
    }
}

/// What a constraint of a table asks that begins at byte `at`, with what is wrong in it noted. An `Err` is want of memory.
pub fn table_rule<B: Binder>(
    binder: &B,
    site: &Site<'_>,
    at: u32,
    rule: &TableRule,
    faults: &mut Faults,
    alloc: Global,
) -> Result<Option<Rule>, NoMemory>
    ensures { Finds (spec.table_rule (seen site.now) at rule.now) faults.old faults.new result }
{
    match rule {
        TableRule::PrimaryKey(list) => primary_key(&site.own, list.as_slice(), faults, alloc),
        TableRule::Unique(list) => unique(&site.own, list.as_slice(), faults, alloc),
        TableRule::Check(e) => check(binder, site.scope, e, faults, alloc),
        TableRule::ForeignKey(list, key) => {
            let columns = list.as_slice();
            reference(site, at, columns, key, faults, alloc)
        }
    }
}
