// What entries are told.
ghost use Rattle.std.specs.Fmt.{decimal};
ghost use Rattle.std.specs.Prelude.{◌≡◌, ◌++◌, ◌∷◌, [], None, codes, IfOk, OnOk};
ghost use Rattle.hs_lines.specs.Names.{name_in};
ghost use Rattle.hs_lines.specs.declared.words.Words.TheVariants as said;
ghost use Rattle.hs_turns.specs.Dialect.{refused_words};
ghost use Rattle.hs_moves.specs.Answers as spec;

use hs_base::{CommitNo, NoMemory, SessionNo};
use hs_lines::{Names, Words};
use hs_values::Chars;
use itoa::Buffer;
use std::alloc::Global;

// An entry is done. An `Err` is want of memory.
pub(crate) fn tell_ok(
    alloc: Global,
    told: &mut Vec<Words>,
    commit: Option<CommitNo>,
) -> Result<(), NoMemory>
    ensures { OnOk result (told.new.items ≡ spec.ok_told told.old.items commit) }
{
    let text = Chars::from_text(alloc, "ok")?;
    told.push(Words::Reply { text, commit })?;
    Ok(())
}

// Why it is refused, behind the word that says so. An `Err` is want of memory.
fn refusal(alloc: Global, why: &str) -> Result<Chars, NoMemory>
    ensures { IfOk result (λ text. text ≡ refused_words why.now) }
{
    let mut text = Chars::from_text(alloc, "refused ")?;
    text.push_text(why)?;
    Ok(text)
}

// It is refused. An `Err` is want of memory.
pub(crate) fn tell_refusal(alloc: Global, told: &mut Vec<Words>, why: &str) -> Result<(), NoMemory>
    ensures { OnOk result (told.new.items ≡ spec.refusal_told told.old.items why.now) }
{
    let text = refusal(alloc, why)?;
    told.push(Words::Reply { text, commit: None })?;
    Ok(())
}

// Why it is refused where waits lead back to its session from this one. An `Err` is want of memory.
fn deadlock(alloc: Global, names: &Names, back: SessionNo) -> Result<Chars, NoMemory>
    ensures { IfOk result (λ why. why ≡ codes "deadlock with " ++ name_in names.now back.0) }
{
    let mut why = Chars::from_text(alloc, "deadlock with ")?;
    why.push_text(names.name(back))?;
    Ok(why)
}

// Waits lead back to its session from this one. An `Err` is want of memory.
pub(crate) fn tell_deadlock(
    alloc: Global,
    told: &mut Vec<Words>,
    names: &Names,
    back: SessionNo,
) -> Result<(), NoMemory>
    ensures { OnOk result (told.new.items ≡ spec.refusal_told told.old.items (codes "deadlock with " ++ name_in names.now back.0)) }
{
    let why = deadlock(alloc, names, back)?;
    tell_refusal(alloc, told, why.as_str())?;
    Ok(())
}

// Why it is refused where a commit conflicts with it. An `Err` is want of memory.
fn conflict(alloc: Global, number: CommitNo) -> Result<Chars, NoMemory>
    ensures { IfOk result (λ why. why ≡ codes "conflict with " ++ decimal number.0) }
{
    let mut why = Chars::from_text(alloc, "conflict with ")?;
    let mut digits = Buffer::new();
    why.push_text(digits.format(number.0))?;
    Ok(why)
}

// A commit conflicts with it. An `Err` is want of memory.
pub(crate) fn tell_conflict(
    alloc: Global,
    told: &mut Vec<Words>,
    number: CommitNo,
) -> Result<(), NoMemory>
    ensures { OnOk result (told.new.items ≡ spec.refusal_told told.old.items (codes "conflict with " ++ decimal number.0)) }
{
    let why = conflict(alloc, number)?;
    tell_refusal(alloc, told, why.as_str())?;
    Ok(())
}

// Its rows and its reply, with the commit that it made. An `Err` is want of memory.
pub(crate) fn tell_outcome(
    told: &mut Vec<Words>,
    rows: Vec<Chars>,
    reply: Chars,
    commit: Option<CommitNo>,
) -> Result<(), NoMemory>
    ensures { OnOk result (told.new.items ≡ spec.outcome_told told.old.items rows.items reply commit) }
{
    for row in rows {
        told.push(Words::Row(row))?;
    }
    told.push(Words::Reply {
        text: reply,
        commit,
    })?;
    Ok(())
}
