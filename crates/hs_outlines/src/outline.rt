// A table as the constraints of a definition see it.
ghost use Rattle.std.specs.Prelude.{◌≡◌, IfOk};
ghost use Rattle.hs_elements.specs.Columns.{place_in};
ghost use Rattle.hs_meaning.specs.Parts.{with_part};
ghost use Rattle.hs_outlines.specs.Outline as spec;

use hs_ast::Identifier;
use hs_base::NoMemory;
use hs_elements::Columns;
use hs_plan::Column;
use sqlite_items::Items;
use std::alloc::Global;

/// A key that a foreign key may reference: the primary key of a table, or a UNIQUE constraint of it.
#[derive(Drop)]
pub struct Key {
    pub primary: bool,
    /// Places in its table, from 0.
    pub columns: Items<u32>,
}

/// The columns and the keys of a table.
#[derive(Clone, Copy)]
pub struct Outline<'a> {
    pub name: &'a str,
    pub columns: &'a [Column],
    /// The same columns by their names.
    pub names: &'a Columns,
    pub keys: &'a [Key],
}

fn with_place(
    places: Option<Items<u32>>,
    place: Option<u32>,
) -> Result<Option<Items<u32>>, NoMemory>
    ensures { IfOk result (λ made. made ≡ with_part places place) }
{
    let Some(place) = place else {
        return Ok(None);
    };
    let Some(mut places) = places else {
        return Ok(None);
    };
    places.push(place)?;
    Ok(Some(places))
}

/// The place of the column of a name. An `Err` is want of memory, as a place has 32 bits.
pub fn place_in(names: &Columns, name: &str) -> Result<Option<u32>, NoMemory>
    ensures { IfOk result (λ place. place ≡ place_in names.now name.now) }
{
    let Some(place) = names.place_of(name) else {
        return Ok(None);
    };
    match u32::try_from(place) {
        Ok(place) => Ok(Some(place)),
        Err(_) => Err(NoMemory),
    }
}

/// The places of columns, where all names are those of columns. An `Err` is want of memory.
pub fn places_in(
    names: &Columns,
    list: &[Identifier],
    alloc: Global,
) -> Result<Option<Items<u32>>, NoMemory>
    ensures { IfOk result (λ places. places ≡ spec.places_in names.now list.now) }
{
    let mut places = Some(Items::new(alloc));
    for name in list {
        places = with_place(places, place_in(names, name.name.as_str())?)?;
    }
    Ok(places)
}
