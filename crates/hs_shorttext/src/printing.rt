// Short definitions as they are written.
ghost use Rattle.std.specs.Prelude.{◌≡◌, ◌++◌, OnOk};
ghost use Rattle.hs_shorttext.specs.Indexes.{listed_text, index_text};
ghost use Rattle.hs_shorttext.specs.Plain.{dropped_table_text, dropped_index_text};
ghost use Rattle.hs_shorttext.specs.Settings.{control_line, level_line};

use crate::settings::{print_level_words, print_model};
use crate::tables::columns_of;
use hs_base::NoMemory;
use hs_keytext::print_places;
use hs_nametext::print_name;
use hs_plan::{Column, TransactionControl};
use hs_schema::Catalog;
use hs_values::Chars;

/// Adds the line `DROP TABLE T`. An `Err` is want of memory, and then a part of it may be there.
pub fn print_dropped_table(name: &str, out: &mut Chars) -> Result<(), NoMemory>
    ensures { OnOk result (out.new ≡ out.old ++ dropped_table_text name.now) }
{
    out.push_text("DROP TABLE ")?;
    print_name(name, out)
}

/// Adds the line `DROP INDEX I`. An `Err` is want of memory, and then a part of it may be there.
pub fn print_dropped_index(name: &str, out: &mut Chars) -> Result<(), NoMemory>
    ensures { OnOk result (out.new ≡ out.old ++ dropped_index_text name.now) }
{
    out.push_text("DROP INDEX ")?;
    print_name(name, out)
}

/// Adds the line `SET DATABASE TRANSACTION CONTROL m`, m being LOCKS, MVLOCKS or MVCC. An `Err` is want of memory, and then a
/// part of it may be there.
pub fn print_control(control: TransactionControl, out: &mut Chars) -> Result<(), NoMemory>
    ensures { OnOk result (out.new ≡ out.old ++ control_line control) }
{
    out.push_text("SET DATABASE TRANSACTION CONTROL ")?;
    print_model(control, out)
}

/// Adds the line `SET DATABASE DEFAULT ISOLATION LEVEL l`, l being SERIALIZABLE or else READ COMMITTED. An `Err` is want of
/// memory, and then a part of it may be there.
pub fn print_level(serializable: bool, out: &mut Chars) -> Result<(), NoMemory>
    ensures { OnOk result (out.new ≡ out.old ++ level_line serializable) }
{
    out.push_text("SET DATABASE DEFAULT ISOLATION LEVEL ")?;
    print_level_words(serializable, out)
}

/// Adds columns between parentheses.
fn print_listed(places: &[u32], columns: &[Column], out: &mut Chars) -> Result<(), NoMemory>
    ensures { OnOk result (out.new ≡ out.old ++ listed_text columns.now places.now) }
{
    out.push_text("(")?;
    print_places(places, columns, out)?;
    Ok(out.push_text(")")?)
}

/// Adds the line `CREATE INDEX I ON T(C,D)`, the columns being places in the catalogue's table of this name. A place that no
/// column has, or any place where there is no such table, has the empty name. An `Err` is want of memory, and then a part of
/// the line may be there.
pub fn print_index(
    name: &str,
    table: &str,
    places: &[u32],
    catalog: &Catalog,
    out: &mut Chars,
) -> Result<(), NoMemory>
    ensures { OnOk result (out.new ≡ out.old ++ index_text catalog.now name.now table.now places.now) }
{
    out.push_text("CREATE INDEX ")?;
    print_name(name, out)?;
    out.push_text(" ON ")?;
    print_name(table, out)?;
    print_listed(places, columns_of(catalog, table), out)
}
