// Columns as they are written.
ghost use Rattle.std.specs.Prelude.{◌≡◌, ◌++◌, OnOk};
ghost use Rattle.hs_columntext.specs.Columns.{default_text, column_text, columns_text, IsPrintable, ArePrintable};
ghost use Rattle.hs_columntext.specs.Lists.{others_text};

use hs_base::NoMemory;
use hs_nametext::print_name;
use hs_plan::Column;
use hs_values::{Chars, Value};
use hs_valuetext::{print_type, print_value};
use std::alloc::Global;

fn print_default(alloc: Global, default: &Option<Value>, out: &mut Chars) -> Result<(), NoMemory>
    requires { IsPrintable default.now }
    ensures { OnOk result (out.new ≡ out.old ++ default_text default.now) }
{
    match default {
        Some(value) => {
            out.push_text(" DEFAULT ")?;
            print_value(alloc, value, out)
        }
        None => Ok(()),
    }
}

/// Adds a column's text: its name, its type, and DEFAULT with a value where it has one. The value is lawful. An `Err` is want
/// of memory, and then a part of the text may be there.
pub fn print_column(alloc: Global, column: &Column, out: &mut Chars) -> Result<(), NoMemory>
    requires { IsPrintable column.now.default }
    ensures { OnOk result (out.new ≡ out.old ++ column_text column.now) }
{
    print_name(column.name.as_str(), out)?;
    out.push_text(" ")?;
    print_type(&column.data_type, out)?;
    print_default(alloc, &column.default, out)
}

/// Adds columns, each behind a comma.
fn print_others(alloc: Global, columns: &[Column], out: &mut Chars) -> Result<(), NoMemory>
    requires { ArePrintable columns.now }
    ensures { OnOk result (out.new ≡ out.old ++ others_text column_text columns.now) }
{
    for column in columns {
        out.push_text(",")?;
        print_column(alloc, column, out)?;
    }
    Ok(())
}

/// Adds the texts of columns with commas between. The values behind DEFAULT are lawful. An `Err` is want of memory, and then a
/// part of the text may be there.
pub fn print_columns(alloc: Global, columns: &[Column], out: &mut Chars) -> Result<(), NoMemory>
    requires { ArePrintable columns.now }
    ensures { OnOk result (out.new ≡ out.old ++ columns_text columns.now) }
{
    match columns {
        [first, others @ ..] => {
            print_column(alloc, first, out)?;
            print_others(alloc, others, out)
        }
        [] => Ok(()),
    }
}
