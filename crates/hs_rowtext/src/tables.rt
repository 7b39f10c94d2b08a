// Tables by their names as they are written.
ghost use Rattle.std.specs.Prelude.{IfOk};
ghost use Rattle.hs_valuetext.specs.Finding.{Finds};
ghost use Rattle.hs_rowtext.specs.Lines.{IsTableAt};

use hs_nametext::read_name;
use hs_schema::{Catalog, Table};
use std::alloc::{AllocError, Global};

/// The table of the catalogue with whose name, as it is written, a text begins, and what is behind the name. None exactly
/// where there is none. An `Err` is want of memory.
pub fn read_table<'a, 'c>(
    alloc: Global,
    text: &'a str,
    catalog: &'c Catalog,
) -> Result<Option<(&'c Table, &'a str)>, AllocError>
    ensures { IfOk result (λ found. Finds (λ t. t.now) (IsTableAt catalog.now text.now) found) }
{
    match read_name(alloc, text) {
        Ok(Some((name, rest))) => match catalog.table(name.as_str()) {
            Some(table) => Ok(Some((table, rest))),
            None => Ok(None),
        },
        Ok(None) => Ok(None),
        Err(error) => Err(error),
    }
}
