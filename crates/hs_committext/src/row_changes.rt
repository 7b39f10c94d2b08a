// Changes of rows as they are written.
ghost use Rattle.std.specs.Prelude.{◌≡◌, ◌++◌, OnOk, IfOk};
ghost use Rattle.hs_nametext.specs.Names.{name_text};
ghost use Rattle.hs_rowtext.specs.Lines.{row_line, IsPrintable};
ghost use Rattle.hs_committext.specs.Changes as spec;

use hs_base::{NoMemory, TableNo};
use hs_nametext::print_name;
use hs_plan::Change;
use hs_rowtext::print_row_line;
use hs_schema::Catalog;
use hs_values::Chars;
use std::alloc::Global;

/// The name of the catalogue's table of this number, and the empty one where there is none.
fn table_name<'a>(catalog: &'a Catalog, table: TableNo) -> &'a str
    ensures { result.now ≡ spec.table_name catalog.now table }
{
    match catalog.table_numbered(table) {
        Some(found) => found.name.as_str(),
        None => "",
    }
}

/// The name of the catalogue's table of this number, as it is written.
fn written_name(alloc: Global, catalog: &Catalog, table: TableNo) -> Result<Chars, NoMemory>
    ensures { IfOk result (λ made. made ≡ name_text (spec.table_name catalog.now table)) }
{
    let mut written = Chars::new(alloc);
    print_name(table_name(catalog, table), &mut written)?;
    Ok(written)
}

/// Adds the line of a change of a row of the catalogue's table of this number.
pub(crate) fn print_row_change(
    alloc: Global,
    table: TableNo,
    change: &Change,
    catalog: &Catalog,
    out: &mut Chars,
) -> Result<(), NoMemory>
    requires { IsPrintable change.now }
    ensures { OnOk result (out.new ≡ out.old ++ row_line (name_text (spec.table_name catalog.now table)) change.now) }
{
    let written = written_name(alloc, catalog, table)?;
    print_row_line(alloc, written.as_str(), change, out)
}
