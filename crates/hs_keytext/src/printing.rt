// Keys as they are written.
ghost use Rattle.std.specs.Prelude.{◌≡◌, ◌++◌, OnOk};
ghost use Rattle.hs_columntext.specs.Lists.{others_text};
ghost use Rattle.hs_keytext.specs.ForeignKeys.{action_text, actions_text, parent_text, parent_of, foreign_key_text};
ghost use Rattle.hs_keytext.specs.Places.{place_text, places_text};
ghost use Rattle.hs_keytext.specs.Owners.{seen};

use crate::owner::{Owner, parent_columns};
use hs_base::NoMemory;
use hs_nametext::print_name;
use hs_plan::{Column, ForeignKey, ReferentialAction};
use hs_values::Chars;

/// Adds the name of the column at a place, and where there is none the empty name.
fn print_place(place: u32, columns: &[Column], out: &mut Chars) -> Result<(), NoMemory>
    ensures { OnOk result (out.new ≡ out.old ++ place_text columns.now place) }
{
    match columns.get(place as usize) {
        Some(column) => print_name(column.name.as_str(), out),
        None => print_name("", out),
    }
}

/// Adds names of columns, each behind a comma.
fn print_others(places: &[u32], columns: &[Column], out: &mut Chars) -> Result<(), NoMemory>
    ensures { OnOk result (out.new ≡ out.old ++ others_text (place_text columns.now) places.now) }
{
    for place in places {
        out.push_text(",")?;
        print_place(*place, columns, out)?;
    }
    Ok(())
}

/// Adds the names of the columns at these places, with commas between, and the empty name for each place that no column has.
/// An `Err` is want of memory, and then a part of the text may be there.
pub fn print_places(places: &[u32], columns: &[Column], out: &mut Chars) -> Result<(), NoMemory>
    ensures { OnOk result (out.new ≡ out.old ++ places_text columns.now places.now) }
{
    match places {
        [first, others @ ..] => {
            print_place(*first, columns, out)?;
            print_others(others, columns, out)
        }
        [] => Ok(()),
    }
}

fn print_action(action: ReferentialAction, out: &mut Chars) -> Result<(), NoMemory>
    ensures { OnOk result (out.new ≡ out.old ++ action_text action) }
{
    match action {
        ReferentialAction::NoAction => Ok(out.push_text("NO ACTION")?),
        ReferentialAction::Restrict => Ok(out.push_text("RESTRICT")?),
        ReferentialAction::Cascade => Ok(out.push_text("CASCADE")?),
        ReferentialAction::SetNull => Ok(out.push_text("SET NULL")?),
        ReferentialAction::SetDefault => Ok(out.push_text("SET DEFAULT")?),
    }
}

fn print_actions(
    on_delete: ReferentialAction,
    on_update: ReferentialAction,
    out: &mut Chars,
) -> Result<(), NoMemory>
    ensures { OnOk result (out.new ≡ out.old ++ actions_text (on_delete, on_update)) }
{
    out.push_text(" ON DELETE ")?;
    print_action(on_delete, out)?;
    out.push_text(" ON UPDATE ")?;
    print_action(on_update, out)
}

/// Adds the parent of a foreign key with its columns, and the actions.
fn print_parent(key: &ForeignKey, owner: &Owner<'_>, out: &mut Chars) -> Result<(), NoMemory>
    ensures { OnOk result (out.new ≡ out.old ++ parent_text (seen owner.now) (parent_of key.now)) }
{
    let parent = key.parent.as_str();
    print_name(parent, out)?;
    out.push_text("(")?;
    print_places(
        key.parent_columns.as_slice(),
        parent_columns(owner, parent),
        out,
    )?;
    out.push_text(")")?;
    print_actions(key.on_delete, key.on_update, out)
}

/// Adds the text of a foreign key of this owner: `FOREIGN KEY(C) REFERENCES P(D) ON DELETE a ON UPDATE a`. A place that no
/// column has, or any place of a parent that is neither the owner nor in the catalogue, has the empty name. An `Err` is want of
/// memory, and then a part of the text may be there.
pub fn print_foreign_key(
    key: &ForeignKey,
    owner: &Owner<'_>,
    out: &mut Chars,
) -> Result<(), NoMemory>
    ensures { OnOk result (out.new ≡ out.old ++ foreign_key_text (seen owner.now) key.now) }
{
    out.push_text("FOREIGN KEY(")?;
    print_places(key.columns.as_slice(), owner.columns, out)?;
    out.push_text(") REFERENCES ")?;
    print_parent(key, owner, out)
}
