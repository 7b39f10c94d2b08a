// What a turn tells and makes is gathered.
ghost use Rattle.std.specs.Prelude.{◌≡◌, ◌++◌, ◌<◌, [], OnOk, OnErr, if◌then◌else◌};
ghost use Rattle.hs_lines.specs.Told.{lines_of};
ghost use Rattle.hs_turns.specs.Lines.{printed};
ghost use Rattle.hs_gathering.specs.Entries.{entry_lines};

use hs_base::SessionNo;
use hs_lines::{Names, Told, Words};
use hs_log::Batch;
use hs_run::Gathered;
use std::alloc::AllocError;

/// Gathers what a turn of a session tells, which is whole lines, and the commits that it makes. After an `Err`, which is want
/// of memory, nothing is gathered.
pub fn gather(
    text: &[u8],
    made: &Batch,
    session: SessionNo,
    gathered: &mut Gathered,
) -> Result<(), AllocError>
    ensures told { OnOk result (gathered.new.told ≡ gathered.old.told ++ text.now) }
    ensures made { OnOk result (gathered.new.made ≡ gathered.old.made ++ made.now) }
    ensures err { OnErr result (gathered.new ≡ gathered.old) }
{
    let before = gathered.told.len();
    gathered.told.push(text)?;
    if gathered.made.append(made).is_err() {
        gathered.told.truncate(before);
        return Err(AllocError);
    }
    if made.count() > 0 {
        gathered.session = session.0;
    }
    Ok(())
}

/// Adds the lines that a turn tells. After an `Err`, which is want of memory, some of them may be there.
pub fn print(told: &Told, names: &Names, text: &mut Vec<u8>) -> Result<(), AllocError>
    ensures { OnOk result (text.new.items ≡ text.old.items ++ printed (lines_of names.now told.now)) }
{
    for at in 0..told.len() {
        told.print_line(at, names, text)?;
    }
    Ok(())
}

/// Writes the lines of an entry, if it is told anything, in place of those before.
pub fn print_words(
    is_told: bool,
    number: u64,
    session: SessionNo,
    words: Vec<Words>,
    names: &Names,
    text: &mut Vec<u8>,
) -> Result<(), AllocError>
    ensures { OnOk result (text.new.items ≡ printed (if is_told then entry_lines names.now number session.0 words.items else [])) }
{
    text.clear();
    if !is_told {
        return Ok(());
    }
    let told = Told::OfEntry {
        number,
        session,
        words,
    };
    print(&told, names, text)
}
