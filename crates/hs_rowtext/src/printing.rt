// Rows and their lines as they are written.
ghost use Rattle.std.specs.Prelude.{◌≡◌, ◌++◌, OnOk};
ghost use Rattle.std.specs.List.{All};
ghost use Rattle.hs_values.specs.Lawful.{IsLawful};
ghost use Rattle.hs_rowtext.specs.Rows.{row_text, others_text};
ghost use Rattle.hs_rowtext.specs.Lines.{row_line, kept_line, values_part, number_part, numbered_part, IsPrintable};

use hs_base::{NoMemory, RowNo};
use hs_plan::Change;
use hs_values::{Chars, Row, Value};
use hs_valuetext::print_value;
use itoa::Buffer;
use std::alloc::Global;

/// Adds values, each behind a comma.
fn print_others(alloc: Global, row: &[Value], out: &mut Chars) -> Result<(), NoMemory>
    requires { All IsLawful row.now }
    ensures { OnOk result (out.new ≡ out.old ++ others_text row.now) }
{
    for value in row {
        out.push_text(",")?;
        print_value(alloc, value, out)?;
    }
    Ok(())
}

/// Adds the values of a row with commas between. They are lawful. An `Err` is want of memory, and then a part of the text may
/// be there.
pub fn print_row(alloc: Global, row: &[Value], out: &mut Chars) -> Result<(), NoMemory>
    requires { All IsLawful row.now }
    ensures { OnOk result (out.new ≡ out.old ++ row_text row.now) }
{
    match row {
        [first, others @ ..] => {
            print_value(alloc, first, out)?;
            print_others(alloc, others, out)
        }
        [] => Ok(()),
    }
}

/// Adds ` VALUES(..)`.
fn print_values_part(alloc: Global, row: &Row, out: &mut Chars) -> Result<(), NoMemory>
    requires { All IsLawful row.now }
    ensures { OnOk result (out.new ≡ out.old ++ values_part row.now) }
{
    out.push_text(" VALUES(")?;
    print_row(alloc, row.as_slice(), out)?;
    Ok(out.push_text(")")?)
}

/// Adds ` ROW ` and the number.
fn print_number_part(number: RowNo, out: &mut Chars) -> Result<(), NoMemory>
    ensures { OnOk result (out.new ≡ out.old ++ number_part number) }
{
    out.push_text(" ROW ")?;
    Ok(out.push_text(Buffer::new().format(number.0))?)
}

fn print_numbered_part(
    alloc: Global,
    number: RowNo,
    row: &Row,
    out: &mut Chars,
) -> Result<(), NoMemory>
    requires { All IsLawful row.now }
    ensures { OnOk result (out.new ≡ out.old ++ numbered_part number row.now) }
{
    print_number_part(number, out)?;
    print_values_part(alloc, row, out)
}

/// Adds the line of a change of a row, without a line's end: `INSERT INTO T VALUES(..)`, `UPDATE T ROW r VALUES(..)` or
/// `DELETE FROM T ROW r`. The table's name is given as it is written, which serves all lines of one table. The values are
/// lawful. A definition has no such line, and nothing is added. An `Err` is want of memory, and then a part of the line may be
/// there.
pub fn print_row_line(
    alloc: Global,
    written: &str,
    change: &Change,
    out: &mut Chars,
) -> Result<(), NoMemory>
    requires { IsPrintable change.now }
    ensures { OnOk result (out.new ≡ out.old ++ row_line written.now change.now) }
{
    match change {
        Change::Insert(_, row) => {
            out.push_text("INSERT INTO ")?;
            out.push_text(written)?;
            print_values_part(alloc, row, out)
        }
        Change::Put(_, number, row) => {
            out.push_text("UPDATE ")?;
            out.push_text(written)?;
            print_numbered_part(alloc, *number, row, out)
        }
        Change::Delete(_, number) => {
            out.push_text("DELETE FROM ")?;
            out.push_text(written)?;
            print_number_part(*number, out)
        }
        Change::Define(_) => Ok(()),
    }
}

/// Adds the line of a row that is kept with its number, without a line's end: `INSERT INTO T ROW r VALUES(..)`. The table's
/// name is given as it is written. The values are lawful. An `Err` is want of memory, and then a part of the line may be there.
pub fn print_kept_line(
    alloc: Global,
    written: &str,
    number: RowNo,
    row: &Row,
    out: &mut Chars,
) -> Result<(), NoMemory>
    requires { All IsLawful row.now }
    ensures { OnOk result (out.new ≡ out.old ++ kept_line written.now number row.now) }
{
    out.push_text("INSERT INTO ")?;
    out.push_text(written)?;
    print_numbered_part(alloc, number, row, out)
}
