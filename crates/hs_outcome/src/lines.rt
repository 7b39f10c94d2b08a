// The lines of answered rows.
ghost use Rattle.std.specs.Prelude.{◌≡◌, ◌++◌, map, Option, OnOk};
ghost use Rattle.std.specs.List.{All};
ghost use Rattle.hs_claims.specs.declared.footprint.Footprint.{Footprint};
ghost use Rattle.hs_language.specs.Words.{row_words};
ghost use Rattle.hs_schema.specs.Catalogue.{Things};
ghost use Rattle.hs_sentences.specs.declared.violation.Violation.{Violation};
ghost use Rattle.hs_values.specs.Lawful.{IsLawful};
ghost use Rattle.hs_outcome.specs.Given.{finished};

use crate::given::Given;
use hs_base::NoMemory;
use hs_rowtext::print_row;
use hs_values::{Chars, Row, Value};
use std::alloc::Global;

/// The rows of which a statement tells a line each, before its reply. Takes no memory.
pub fn answered_rows(given: &Given) -> &[Row]
    ensures { (violation : Option Violation) (things : Things) (foot : Footprint) → (finished violation things given.now foot).rows ≡ map row_words result.now }
{
    match given {
        Given::Rows(rows) => rows.as_slice(),
        Given::Changes(_, _) => &[],
        Given::Locked => &[],
        Given::Nothing => &[],
        Given::Fault(_) => &[],
    }
}

/// Adds the line of an answered row, `row` and its values, without a line's end. The values are lawful: `are_lawful`
/// is the test. An `Err` is want of memory, and then a part of the line may be there.
pub fn print_row_line(alloc: Global, row: &[Value], out: &mut Chars) -> Result<(), NoMemory>
    requires { All IsLawful row.now }
    ensures { OnOk result (out.new ≡ out.old ++ row_words row.now) }
{
    out.push_text("row ")?;
    print_row(alloc, row, out)
}
