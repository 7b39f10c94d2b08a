// Tables with those whose foreign keys reference them and may act.
ghost use Rattle.std.specs.Prelude.{◌≡◌, fold, slice_get, IfOk, OnOk};
ghost use Rattle.hs_acting.specs.Kept.{keys_in};
ghost use Rattle.hs_actions.specs.Acting as rule;
ghost use Rattle.hs_before.specs.Family as spec;

use hs_acting::References;
use hs_actions::Reference;
use hs_base::{NoMemory, TableNo, Tables};
use hs_plan::ReferentialAction;
use std::alloc::Global;

// Whether a table is one of these.
fn is_in(all: &[TableNo], table: TableNo) -> bool
    ensures { result ≡ spec.is_in all.now table.0 }
{
    for one in all {
        if one.0 == table.0 {
            return true;
        }
    }
    false
}

fn table_at(all: &[TableNo], at: usize) -> Option<TableNo>
    ensures { result ≡ slice_get all.now at }
{
    all.get(at).copied()
}

fn acts(action: ReferentialAction) -> bool
    ensures { result ≡ rule.acts action }
{
    match action {
        ReferentialAction::NoAction | ReferentialAction::Restrict => false,
        ReferentialAction::Cascade | ReferentialAction::SetNull | ReferentialAction::SetDefault =>
            true,
    }
}

fn may_act(key: &Reference) -> bool
    ensures { result ≡ spec.may_act key.now }
{
    acts(key.on_delete) || acts(key.on_update)
}

fn add(all: &mut Tables, one: TableNo) -> Result<(), NoMemory>
    ensures { OnOk result (all.new ≡ spec.with_table all.old one) }
{
    if is_in(all.as_slice(), one) {
        return Ok(());
    }
    all.push(one)
}

fn add_child(all: &mut Tables, key: &Reference) -> Result<(), NoMemory>
    ensures { OnOk result (all.new ≡ spec.with_child all.old key.now) }
{
    if may_act(key) {
        return add(all, key.child);
    }
    Ok(())
}

fn add_children(all: &mut Tables, keys: &[Reference]) -> Result<(), NoMemory>
    ensures { OnOk result (all.new ≡ fold spec.with_child all.old keys.now) }
{
    for key in keys {
        add_child(all, key)?;
    }
    Ok(())
}

// A table alone.
fn one(alloc: Global, table: TableNo) -> Result<Tables, NoMemory>
    ensures { IfOk result (λ all. all ≡ spec.alone table) }
{
    let mut all = Tables::new(alloc);
    all.push(table)?;
    Ok(all)
}

/// A table, the tables whose foreign keys reference it and may act on their rows, which NO ACTION and RESTRICT don't, those
/// whose foreign keys reference these, and so on, each once. It looks at each foreign key that references one of them once.
/// An `Err` is want of memory.
pub fn family(alloc: Global, keys: &References, table: TableNo) -> Result<Tables, NoMemory>
    ensures { IfOk result (λ all. spec.IsFamily (keys_in keys.now) table (spec.is_in all)) }
{
    let mut all = one(alloc, table)?;
    for at in 0..usize::MAX {
        let Some(parent) = table_at(all.as_slice(), at) else {
            return Ok(all);
        };
        add_children(&mut all, keys.on(parent))?;
    }
    Err(NoMemory)
}
