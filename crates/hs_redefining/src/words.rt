// Why a definition is refused.
ghost use Rattle.std.specs.Prelude.{◌≡◌, ◌++◌, IfOk};
ghost use Rattle.hs_language.specs.Words as words;
ghost use Rattle.hs_nametext.specs.Names.{name_text};

use hs_base::NoMemory;
use hs_nametext::print_name;
use hs_sentences::Violation;
use hs_values::{Chars, Name};
use std::alloc::Global;

fn named(alloc: Global, kind: &str, name: &Name) -> Result<Chars, NoMemory>
    ensures { IfOk result (λ text. text ≡ kind.now ++ name_text name.now) }
{
    let mut text = Chars::from_text(alloc, kind)?;
    print_name(name.as_str(), &mut text)?;
    Ok(text)
}

/// Which constraint is violated, and how. An `Err` is want of memory.
pub(crate) fn violation_words(alloc: Global, violation: &Violation) -> Result<Chars, NoMemory>
    ensures { IfOk result (λ text. text ≡ words.violation_words violation.now) }
{
    match violation {
        Violation::Null(name) => named(alloc, "null ", name),
        Violation::Check(name) => named(alloc, "check ", name),
        Violation::Unique(name) => named(alloc, "unique ", name),
        Violation::Parent(name) => named(alloc, "parent ", name),
        Violation::Child(name) => named(alloc, "child ", name),
    }
}

/// A row takes more than 4,000 bytes. An `Err` is want of memory.
pub(crate) fn long_row_words(alloc: Global) -> Result<Chars, NoMemory>
    ensures { IfOk result (λ text. text ≡ words.long_row_words) }
{
    Ok(Chars::from_text(alloc, "limit row")?)
}
