// Runs of the silent machine.
ghost use Rattle.std.specs.Prelude.{IfOk, IfSome};
ghost use Rattle.hs_host.specs.Files.{IsOpen};

use crate::silent::Silent;
use hs_host::{FileKind, Host};
use hs_log::{Log, OpenedLog};
use hs_memhost::{CallList, Images, MemHost};
use hs_run::{Stop, take_turns};
use hs_values::Bytes;
use std::alloc::{AllocError, Global};
use std::test::Fail;

// A host with this input and no files, which are open, unless a call fails by then.
fn opened(alloc: Global, input: &[u8], failing: CallList) -> Result<Option<MemHost>, AllocError>
    ensures { IfOk result (λ host. IfSome host (λ host. IsOpen (⟦<MemHost as Host>⟧.standing host))) }
{
    let input = Bytes::from_vec(input.to_vec(alloc)?);
    let mut host = MemHost::new(alloc, input, Images::new(alloc), false, failing);
    match host.mount("d") {
        Ok(()) => Ok(Some(host)),
        Err(_) => Ok(None),
    }
}

// A run over a new log, unless a call fails before.
fn run<H: Host>(alloc: Global, host: &mut H) -> Option<Result<(), Stop>>
    requires { IsOpen (H.standing host.old) }
{
    match Log::open(alloc, host) {
        Ok(OpenedLog::New(log)) => Some(take_turns(alloc, Silent { made: 0 }, log, host)),
        Ok(OpenedLog::Born(_)) => None,
        Err(_) => None,
    }
}

// Three entries, of which two are whole, and what a log is then that has their texts.
const INPUT: &[u8] = b"a: ONE; b: TWO; c";

const TOLD: &[u8] = b"opened at 0\nclosed at 2\n";

const LOGGED: &[u8] =
    b"\x01\x01\0\0\0\0\0\0\0\x01\x01\0\0\0\0\0\0\0\x05 ONE;\x01\0\0\0\0\0\0\0\x05 TWO;\0";

#[test]
fn commits_are_logged_between_the_first_and_the_last_line(rt: HostRuntime) -> Result<(), Fail> {
    let host = opened(rt.alloc(), INPUT, CallList::new(rt.alloc()))?;
    let mut host = host.ok_or("it wasn't mounted")?;
    let ended = run(rt.alloc(), &mut host);
    assert!(rt; ended == Some(Ok(())));
    assert_eq!(rt; host.output(), TOLD);
    assert_eq!(rt; host.image(FileKind::Log), LOGGED);
    Ok(())
}

// Each call fails in turn: a run that fails has written a front of the transcript.
#[test]
fn what_is_written_is_a_front(rt: HostRuntime) -> Result<(), Fail> {
    for call in 0..40_u64 {
        let failing = CallList::from_vec([call].to_vec(rt.alloc())?);
        if let Some(mut host) = opened(rt.alloc(), INPUT, failing)? {
            run(rt.alloc(), &mut host);
            assert!(rt; TOLD.starts_with(host.output()));
        }
    }
    Ok(())
}
