// Definitions with their numbers as they are written.
ghost use Rattle.std.specs.Prelude.{◌≡◌, ◌++◌, OnOk};
ghost use Rattle.hs_committext.specs.Definitions.{definition_text, IsPrintable};
ghost use Rattle.hs_script.specs.Numbered.{line_end, numbered_text};

use crate::lines::next_line;
use hs_base::NoMemory;
use hs_committext::{Conditions, print_definition};
use hs_plan::Definition;
use hs_schema::Catalog;
use hs_values::Chars;
use itoa::Buffer;
use std::alloc::Global;

/// Adds what stands behind each line: this number, and a line feed.
fn print_end(number: u64, out: &mut Chars) -> Result<(), NoMemory>
    ensures { OnOk result (out.new ≡ out.old ++ line_end number) }
{
    out.push_text(" NUMBER ")?;
    out.push_text(Buffer::new().format(number))?;
    Ok(out.push_text("\n")?)
}

/// Adds a line with this number.
fn print_line(line: &str, number: u64, out: &mut Chars) -> Result<(), NoMemory>
    ensures { OnOk result (out.new ≡ out.old ++ (line.now ++ line_end number)) }
{
    out.push_text(line)?;
    print_end(number, out)
}

/// Adds the lines of a text, each with this number.
fn print_lines(text: &str, number: u64, out: &mut Chars) -> Result<(), NoMemory>
    ensures { OnOk result (out.new ≡ out.old ++ numbered_text number text.now) }
{
    let mut rest = text;
    while let Some((line, more)) = next_line(rest) {
        print_line(line, number, out)?;
        rest = more;
    }
    print_line(rest, number, out)
}

/// Adds the lines of a definition beside this catalogue, which is as it was before, each with the number of its change and a line
/// feed behind it. The values behind DEFAULT are lawful, and the conditions of CHECKs have texts. An `Err` is want of memory, and
/// then a part of the lines may be there.
pub fn print_numbered<C: Conditions>(
    alloc: Global,
    number: u64,
    definition: &Definition,
    catalog: &Catalog,
    conditions: &C,
    out: &mut Chars,
) -> Result<(), NoMemory>
    requires { IsPrintable (C.wording conditions.now) catalog.now definition.now }
    ensures { OnOk result (out.new ≡ out.old ++ numbered_text number (definition_text (C.wording conditions.now) catalog.now definition.now)) }
{
    let mut said = Chars::new(alloc);
    print_definition(alloc, definition, catalog, conditions, &mut said)?;
    print_lines(said.as_str(), number, out)
}
