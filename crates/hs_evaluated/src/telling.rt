// What a statement tells.
ghost use Rattle.std.specs.Prelude.{◌≡◌, map, IfOk};
ghost use Rattle.hs_claims.specs.declared.footprint.Footprint.{Footprint};
ghost use Rattle.hs_language.specs.Words.{row_words};
ghost use Rattle.hs_outcome.specs.Given.{finished};

use hs_base::NoMemory;
use hs_outcome::{Given, are_lawful, print_reply, print_row_line};
use hs_schema::Catalog;
use hs_sentences::Violation;
use hs_values::{Chars, Row};
use std::alloc::Global;

// The line of an answered row. A row with a value that no type has can't be printed, and is refused.
fn line(alloc: Global, row: &Row) -> Result<Chars, NoMemory>
    ensures { IfOk result (λ line. line ≡ row_words row.now) }
{
    let values = row.as_slice();
    if are_lawful(values) {
        let mut line = Chars::new(alloc);
        print_row_line(alloc, values, &mut line)?;
        return Ok(line);
    }
    Err(NoMemory)
}

/// The lines of answered rows.
pub(crate) fn lines(alloc: Global, rows: &[Row]) -> Result<Vec<Chars>, NoMemory>
    ensures { IfOk result (λ lines. lines.items ≡ map row_words rows.now) }
{
    let mut lines = Vec::with_capacity(alloc, rows.len())?;
    for row in rows {
        lines.push(line(alloc, row)?)?;
    }
    Ok(lines)
}

/// The reply of a statement that gives this, where this is the first constraint that its changes violate.
pub(crate) fn reply(
    alloc: Global,
    cat: &Catalog,
    violation: &Option<Violation>,
    given: &Given,
) -> Result<Chars, NoMemory>
    ensures { (foot : Footprint) → IfOk result (λ reply. reply ≡ (finished violation.now cat.now given.now foot).reply) }
{
    let mut reply = Chars::new(alloc);
    print_reply(cat, violation, given, &mut reply)?;
    Ok(reply)
}
