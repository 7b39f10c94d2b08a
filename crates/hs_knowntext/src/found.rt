// Tables that the catalogue has under their numbers and under their names.
ghost use Rattle.std.specs.Prelude.{◌≡◌, IfSome};
ghost use Rattle.hs_nametext.specs.Names as names;
ghost use Rattle.hs_valuetext.specs.Texts as texts;
ghost use Rattle.hs_knowntext.specs.Known.{IsFound};

use hs_base::TableNo;
use hs_schema::{Catalog, Table};

/// The most bytes that a name has.
const MOST_NAME_BYTES: usize = 128;

fn is_control(byte: u8) -> bool
    ensures { result ≡ texts.is_control byte }
{
    byte < 32 || byte == 127
}

fn has_control(text: &[u8]) -> bool
    ensures { result ≡ texts.has_control text.now }
{
    text.iter().any(|byte| is_control(*byte))
}

// Whether a text may be a name.
fn is_name(name: &[u8]) -> bool
    ensures { result ≡ names.is_name name.now }
{
    1 <= name.len() && name.len() <= MOST_NAME_BYTES && !has_control(name)
}

/// The table of this number, where the catalogue has it under its name too, and this can be written. Takes no memory.
pub(crate) fn found_again(catalog: &Catalog, number: TableNo) -> Option<&Table>
    ensures { IfSome result (λ table. IsFound catalog.now number table.now) }
{
    let Some(table) = catalog.table_numbered(number) else {
        return None;
    };
    let name = table.name.as_str();
    if !is_name(name.as_bytes()) {
        return None;
    }
    let Some(named) = catalog.table(name) else {
        return None;
    };
    if named.number == number {
        Some(table)
    } else {
        None
    }
}
