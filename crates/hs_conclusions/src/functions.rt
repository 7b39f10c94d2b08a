// Functions and aggregates over bound operands.
ghost use Rattle.std.specs.Prelude.{◌≡◌, if◌then◌else◌, [], OnErr};
ghost use Rattle.hs_conclusions.specs.Bound.{bound};
ghost use Rattle.hs_meaning.specs.Expressions.{aggregate_meaning};
ghost use Rattle.hs_meaning.specs.Parts.{by_three, by_two, meant, refused};
ghost use Rattle.hs_meaning.specs.Around.{seen};
ghost use Rattle.hs_meaning.specs.Finding.{Finds};
ghost use Rattle.hs_typed.specs.Faults.{noted};
ghost use Rattle.hs_typed.specs.Rules.{rows_typed, substring_typed, trim_typed};

use hs_base::NoMemory;
use hs_meaning::{Surroundings, note_types};
use hs_plan::{Aggregate, TrimForm};
use hs_typed::{Faults, Typed, bind_aggregate, bind_substring, bind_trim, count_rows as rows};
use std::alloc::Global;

/// SUBSTRING at byte `at`. None where an operand isn't known, and where the first is no text or another one no whole number,
/// which is noted as a fault of types. An `Err` is want of memory, and then nothing is noted.
pub fn substring(
    at: u32,
    text: Option<Typed>,
    start: Option<Typed>,
    count: Option<Option<Typed>>,
    faults: &mut Faults,
    alloc: Global,
) -> Result<Option<Typed>, NoMemory>
    ensures found { Finds (by_three substring_typed at (bound text) (bound start) (bound count)) faults.old faults.new result }
    ensures err { OnErr result (faults.new ≡ faults.old) }
{
    let Some(text) = text else {
        return Ok(None);
    };
    let Some(start) = start else {
        return Ok(None);
    };
    let Some(count) = count else {
        return Ok(None);
    };
    let whole = bind_substring(text, start, count, alloc);
    Ok(faults.judge(at, whole)?)
}

/// TRIM at byte `at`, of a character or of spaces. None where an operand isn't known, and where one is no text or a literal that
/// is trimmed off hasn't just one character, which is noted as a fault of types. An `Err` is want of memory, and then nothing
/// is noted.
pub fn trim(
    at: u32,
    form: TrimForm,
    character: Option<Option<Typed>>,
    text: Option<Typed>,
    faults: &mut Faults,
    alloc: Global,
) -> Result<Option<Typed>, NoMemory>
    ensures found { Finds (by_two (trim_typed form) at (bound character) (bound text)) faults.old faults.new result }
    ensures err { OnErr result (faults.new ≡ faults.old) }
{
    let Some(character) = character else {
        return Ok(None);
    };
    let Some(text) = text else {
        return Ok(None);
    };
    let whole = bind_trim(form, character, text, alloc);
    Ok(faults.judge(at, whole)?)
}

/// COUNT, SUM, AVG, MIN or MAX at byte `at`, of an operand. None where no aggregate may stand there or the operand is of a kind
/// that isn't taken, which is noted as a fault of types, and where the operand isn't known. An `Err` is want of memory, and
/// then nothing is noted.
pub fn aggregate(
    at: u32,
    function: Aggregate,
    distinct: bool,
    a: Option<Typed>,
    around: &Surroundings<'_>,
    faults: &mut Faults,
    alloc: Global,
) -> Result<Option<Typed>, NoMemory>
    ensures found { Finds (aggregate_meaning function distinct at (seen around.now) (bound a)) faults.old faults.new result }
    ensures err { OnErr result (faults.new ≡ faults.old) }
{
    if !around.aggregates {
        note_types(at, faults);
        return Ok(None);
    }
    match a {
        Some(a) => Ok(faults.judge(at, bind_aggregate(function, distinct, a, alloc))?),
        None => Ok(None),
    }
}

/// `COUNT(*)` at byte `at`. None where no aggregate may stand there, which is noted as a fault of types. Takes no memory.
pub fn count_rows(at: u32, around: &Surroundings<'_>, faults: &mut Faults) -> Option<Typed>
    ensures part { result ≡ (if (seen around.now).aggregates then meant rows_typed else refused at []).part }
    ensures noted { faults.new ≡ noted faults.old (if (seen around.now).aggregates then meant rows_typed else refused at []).faults }
{
    if !around.aggregates {
        note_types(at, faults);
        return None;
    }
    Some(rows())
}
