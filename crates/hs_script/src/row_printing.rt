// The group of a MEMORY table as it is written.
ghost use Rattle.std.specs.Prelude.{◌≡◌, ◌++◌, ◌∷◌, [], OnOk};
ghost use Rattle.std.specs.List.{All};
ghost use Rattle.hs_values.specs.Lawful.{IsLawful};
ghost use Rattle.hs_script.specs.Rows.{seen, row_line, rows_text};

use crate::shelf::Shelf;
use crate::stored_row::StoredRow;
use hs_base::NoMemory;
use hs_rowtext::print_kept_line;
use hs_values::Chars;
use std::alloc::Global;

/// Adds the line of a row with a line feed behind it. The values are lawful. An `Err` is want of memory, and then a part of
/// the line may be there.
pub fn print_stored(
    alloc: Global,
    stored: &StoredRow,
    shelf: &Shelf<'_>,
    out: &mut Chars,
) -> Result<(), NoMemory>
    requires { All IsLawful stored.now.values }
    ensures { OnOk result (out.new ≡ out.old ++ (row_line (seen shelf.now) stored.now ++ 10 ∷ [])) }
{
    print_kept_line(alloc, shelf.written, stored.row, &stored.values, out)?;
    Ok(out.push_text("\n")?)
}

/// Adds the lines of rows of this table, each with a line feed behind it. The values are lawful. An `Err` is want of memory,
/// and then a part of the text may be there.
pub fn print_rows(
    alloc: Global,
    rows: &[StoredRow],
    shelf: &Shelf<'_>,
    out: &mut Chars,
) -> Result<(), NoMemory>
    requires { All (λ r. All IsLawful r.values) rows.now }
    ensures { OnOk result (out.new ≡ out.old ++ rows_text (seen shelf.now) rows.now) }
{
    for stored in rows {
        print_stored(alloc, stored, shelf, out)?;
    }
    Ok(())
}
