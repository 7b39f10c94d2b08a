// A run from its first line to its last.
ghost use Rattle.std.specs.Prelude.{◌≡◌, ◌<◌, ◌≤◌, ◌+◌, ◌^◌, [], ◌++◌, length, take, IsErrOf, OnOk};
ghost use Rattle.hs_entries.specs.Items.{items, whole_items};
ghost use Rattle.hs_host.specs.Moments.{Since};
ghost use Rattle.hs_host.specs.Used.{Told};
ghost use Rattle.hs_log.specs.Log.{IsWholeLog};
ghost use Rattle.hs_run.specs.Crash.{IsHeld, texts_in};
ghost use Rattle.hs_run.specs.Future.{Future};
ghost use Rattle.hs_run.specs.Holding.{WritesPrefix};
ghost use Rattle.hs_run.specs.Outgoing.{Closes, IsServing, Opens};
ghost use Rattle.hs_run.specs.Pieces.{made_by, transcript, transcript_within};
ghost use Rattle.hs_run.specs.Prompt.{AsksNothing, IsOnTime, due_of};
ghost use Rattle.hs_run.specs.Running.{IsBeginning, pieces};
ghost use Rattle.hs_run.specs.Used.{TakesTurns};

use crate::flush::flush;
use crate::gathered::Gathered;
use crate::outgoing::Outgoing;
use crate::running::Running;
use crate::stop::Stop;
use crate::turns::Turns;
use hs_entries::EntryReader;
use hs_host::Host;
use hs_log::Log;
use std::alloc::{AllocError, Global};

/// How many bytes of the input are used at most.
const MOST_INPUT: u64 = 1 << 30;

/// Writes the first line, with how many commits the database has, takes turns over all items of the host's input and at its
/// end, logs what they commit before it is told, and writes the last line. The host's files are open, the log is kept as it
/// stands on the disk, and what turns tell of commits is true.
///
/// Whatever this ends with, what was written is a front of the transcript, and a crash at each moment leaves a log of the texts
/// that were there and a front of those that turns make, with all commits that were told by then. Before more of the input is
/// asked for, all was written that comes with the items that are whole in what was taken of it, and whatever a crash leaves there
/// is a log of the texts that were there and of all that come with these items. After an `Ok` the input was read to its end, the
/// whole transcript was written, and the log has all texts.
///
/// `Input`, `Output` and `Disk` come only where a call of that device failed, `NoMemory` is free, and `TooLong` comes only
/// where the input has more than 2^30 bytes: then all was written that comes with its items up to there.
pub fn take_turns<H: Host, T: Turns + Drop>(
    alloc: Global,
    turns: T,
    log: Log,
    host: &mut H,
) -> Result<(), Stop>
    requires begins { (f : Future) × IsBeginning T.Turns H.Source H.Host.own f turns log host.old }
    ensures front { (f : Future) → IsBeginning T.Turns H.Source H.Host.own f turns log host.old → H.tells → WritesPrefix (H.written host.old) (H.written host.new) (transcript f.commits (pieces f (items 1 (H.unread host.old)))) }
    ensures done { (f : Future) → IsBeginning T.Turns H.Source H.Host.own f turns log host.old → H.tells → OnOk result (H.written host.new ≡ H.written host.old ++ transcript f.commits (pieces f (items 1 (H.unread host.old)))) }
    ensures too_long { (f : Future) → IsBeginning T.Turns H.Source H.Host.own f turns log host.old → H.tells → IsErrOf result Stop.TooLong → (2 ^ 30 < length (H.unread host.old)) × (H.written host.new ≡ H.written host.old ++ transcript_within f.commits (f.taken (whole_items 1 (take (2 ^ 30) (H.unread host.old))))) }
    ensures read { H.tells → OnOk result ((H.unread host.new ≡ []) × (length (H.unread host.old) ≤ 2 ^ 30)) }
    ensures log { (f : Future) → IsBeginning T.Turns H.Source H.Host.own f turns log host.old → Told H.Source H.Host.own host.old → OnOk result (IsWholeLog 1 (texts_in (H.files host.old) ++ made_by (pieces f (items 1 (H.unread host.old)))) (H.files host.new).log) }
    ensures moments { (f : Future) → IsBeginning T.Turns H.Source H.Host.own f turns log host.old → Told H.Source H.Host.own host.old → Since (IsHeld (length (texts_in (H.files host.old))) (texts_in (H.files host.old) ++ made_by (pieces f (items 1 (H.unread host.old)))) (H.written host.old)) (H.history host.old) (H.history host.new) }
    ensures prompt { (f : Future) → IsBeginning T.Turns H.Source H.Host.own f turns log host.old → Told H.Source H.Host.own host.old → Since (IsOnTime (due_of (texts_in (H.files host.old)) f) (H.history host.old).now) (H.history host.old) (H.history host.new) }
    ensures ends { TakesTurns H.Source H.Host.own host.old host.new result }
{
    let mut outgoing = Outgoing {
        gathered: Gathered::new(alloc),
        standing: 0,
        log,
    };
    open(&mut outgoing, turns.commits(), host)?;
    let mut running = Running {
        reader: EntryReader::new(alloc, MOST_INPUT),
        turns,
        outgoing,
    };
    running.take_all(host)?;
    running.close_all(host)?;
    let commits = running.turns.commits();
    last(&mut running.outgoing, commits, host)
}

// Writes the first line, before anything else is gathered.
fn open<H: Host>(outgoing: &mut Outgoing, commits: u64, host: &mut H) -> Result<(), Stop>
    requires serving { IsServing H.Source H.Host.own outgoing.old host.old }
    requires told { outgoing.old.gathered.told ≡ [] }
    requires made { outgoing.old.gathered.made ≡ [] }
    ensures opens { Opens H.Source H.Host.own commits outgoing.old host.old outgoing.new host.new result }
    ensures unasked { AsksNothing H.Source H.Host.own host.old host.new }
    ensures unread { H.unread host.new ≡ H.unread host.old }
    ensures short { IsErrOf result Stop.TooLong → ⊥ }
{
    outgoing.gathered.told.push_opened(commits)?;
    outgoing.standing = 0;
    flush(&mut outgoing.gathered.told, host)
}

// Writes the last line, behind all that is gathered.
fn last<H: Host>(outgoing: &mut Outgoing, commits: u64, host: &mut H) -> Result<(), Stop>
    requires serving { IsServing H.Source H.Host.own outgoing.old host.old }
    ensures closes { Closes H.Source H.Host.own commits outgoing.old host.old host.new result }
    ensures unasked { AsksNothing H.Source H.Host.own host.old host.new }
    ensures unread { H.unread host.new ≡ H.unread host.old }
    ensures short { IsErrOf result Stop.TooLong → ⊥ }
{
    if let Err(AllocError) = outgoing.gathered.told.push_closed(commits) {
        return Err(outgoing.wanting(host));
    }
    outgoing.hand_over(host)
}
