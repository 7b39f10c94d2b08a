// What the tests share: a command line, hosts, and runs over them.
ghost use Rattle.std.specs.Prelude.{◌≡◌, IfOk};
ghost use Rattle.hs_host.specs.Files.{IsUnnamed};

use hs_host::{FileKind, Host};
use hs_memhost::{CallList, Images, MemHost};
use hs_top::{Status, run};
use hs_values::{Bytes, Chars, Words};
use std::alloc::{AllocError, Global};

pub fn words(alloc: Global, texts: &[&str]) -> Result<Words, AllocError> {
    let mut words = Words::new(alloc);
    for text in texts {
        words.push(Chars::from_text(alloc, text)?)?;
    }
    Ok(words)
}

/// A host with this input, whose log has these bytes and whose other files are empty.
pub fn host(alloc: Global, input: &[u8], log: &[u8], failing: &[u64]) -> Result<MemHost, AllocError>
    ensures { IfOk result (λ host. IsUnnamed (⟦<MemHost as Host>⟧.standing host)) }
{
    let input = Bytes::from_vec(input.to_vec(alloc)?);
    let mut files = Images::new(alloc);
    files.log = Bytes::from_vec(log.to_vec(alloc)?);
    let failing = CallList::from_vec(failing.to_vec(alloc)?);
    Ok(MemHost::new(alloc, input, files, false, failing))
}

/// How a run ended, its output with `/` for the end of a line, and the log that it left.
#[derive(Drop)]
pub struct Ended {
    pub status: Status,
    pub text: Vec<u8>,
    pub log: Vec<u8>,
}

/// A run over this input, given in pieces of so many bytes in turn, and over this log.
pub fn shown(
    alloc: Global,
    input: &[u8],
    pieces: &[usize],
    log: &[u8],
    failing: &[u64],
) -> Result<Ended, AllocError> {
    let words = words(alloc, &["hsql", "demo"])?;
    let mut host = host(alloc, input, log, failing)?;
    host.give_in_pieces(pieces.to_vec(alloc)?);
    let status = run(alloc, &words, &mut host);
    let mut text = host.output().to_vec(alloc)?;
    for byte in &mut text {
        if *byte == b'\n' {
            *byte = b'/';
        }
    }
    let log = host.image(FileKind::Log).to_vec(alloc)?;
    Ok(Ended { status, text, log })
}
