// Runs over hosts in memory, and how they end.
ghost use Rattle.std.specs.Prelude.{◌≡◌, IfOk};
ghost use Rattle.hs_host.specs.Files.{IsUnnamed};

use hs_host::{FileKind, Host};
use hs_memhost::{CallList, Images, MemHost};
use hs_top::{Damage, Status, run};
use hs_values::{Bytes, Chars, Words};
use std::alloc::{AllocError, Global};

/// How a run ended, and the output and the log that it left.
#[derive(Drop)]
pub struct Ended {
    pub status: Status,
    pub output: Vec<u8>,
    pub log: Vec<u8>,
}

/// The words of a command line with commas between them; no text is no word.
pub fn words_in(alloc: Global, text: &str) -> Result<Words, AllocError> {
    let mut words = Words::new(alloc);
    if text.is_empty() {
        return Ok(words);
    }
    for word in text.split(',') {
        words.push(Chars::from_text(alloc, word)?)?;
    }
    Ok(words)
}

// A host with this input, given in pieces of so many bytes, and with this log.
fn host(alloc: Global, input: &[u8], piece: usize, log: &[u8]) -> Result<MemHost, AllocError>
    ensures { IfOk result (λ host. IsUnnamed (⟦<MemHost as Host>⟧.standing host)) }
{
    let input = Bytes::from_vec(input.to_vec(alloc)?);
    let mut files = Images::new(alloc);
    files.log = Bytes::from_vec(log.to_vec(alloc)?);
    let mut host = MemHost::new(alloc, input, files, false, CallList::new(alloc));
    host.give_in_pieces([piece].to_vec(alloc)?);
    Ok(host)
}

/// A run of a command line over this input, given in pieces of so many bytes, and over this log.
pub fn run_over(
    alloc: Global,
    words: &Words,
    input: &[u8],
    piece: usize,
    log: &[u8],
) -> Result<Ended, AllocError> {
    let mut host = host(alloc, input, piece, log)?;
    let status = run(alloc, words, &mut host);
    Ok(Ended {
        status,
        output: host.output().to_vec(alloc)?,
        log: host.image(FileKind::Log).to_vec(alloc)?,
    })
}

/// The words of a status.
pub fn shown(alloc: Global, status: &Status) -> Result<String, AllocError> {
    match status {
        Status::Done => String::from_str(alloc, "done"),
        Status::Usage => String::from_str(alloc, "usage"),
        Status::InputFault => String::from_str(alloc, "input fault"),
        Status::OutputFault => String::from_str(alloc, "output fault"),
        Status::DiskFault => String::from_str(alloc, "disk fault"),
        Status::NoMemory => String::from_str(alloc, "out of memory"),
        Status::Damaged(Damage::Foreign) => String::from_str(alloc, "damaged foreign"),
        Status::Damaged(Damage::Log(group)) => format!(in alloc; "damaged log {group}"),
        Status::Damaged(Damage::Invalid(name)) => {
            let name = name.as_str();
            format!(in alloc; "damaged constraint {name}")
        }
        Status::InputTooLong => String::from_str(alloc, "input too long"),
    }
}
