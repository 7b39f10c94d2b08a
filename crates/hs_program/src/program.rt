// The top call.
ghost use Rattle.std.specs.Prelude.{◌≡◌, ◌⊎◌, ◌↔◌, ℕ, ◌^◌, ◌<◌, ◌≤◌, [], ◌++◌, true, false, None, Some, length, List, OnOk, IfErr};
ghost use Rattle.hs_host.specs.Host.{Rose};
ghost use Rattle.hs_host.specs.Files.{IsUnnamed, IsOpen, IsForeign, IsHonest};
ghost use Rattle.hs_host.specs.Moments.{Since};
ghost use Rattle.hs_host.specs.Used.{Told};
ghost use Rattle.hs_log.specs.Log.{IsWholeLog, is_born};
ghost use Rattle.hs_run.specs.Crash.{IsLater, OnlyLog};
ghost use Rattle.hs_run.specs.Holding.{WritesPrefix};
ghost use Rattle.hs_run.specs.Prompt.{IsPrompt, IsPromptlyLogged, due_for, logged_for};
ghost use Rattle.hs_run.specs.Stop.{NoFaults};
ghost use Rattle.hs_program.specs.Ahead.{ahead, all_told, told_within, texts_from, ended_with};
ghost use Rattle.hs_program.specs.Command.{database_of};
ghost use Rattle.hs_program.specs.Crash.{IsQuiet, IsSafe, IsSafeOnce, IsKept, Survives};
ghost use Rattle.hs_program.specs.Damaged.{GivesOneAlone, IsDamagedAlone, IsDamagedAt, IsInvalidAlone};
ghost use Rattle.hs_program.specs.Meaning.{Opened, nothing_logged};
ghost use Rattle.hs_program.specs.Mounting.{Mounts};
ghost use Rattle.hs_program.specs.Opening.{IsInvalid, IsOpened, texts_at};
ghost use Rattle.hs_program.specs.Run.{HasLog, Runs};
ghost use Rattle.hs_program.specs.Stop.{Ends, is_damaged};

use crate::command::database_of;
use crate::damage::Damage;
use crate::engine::Engine;
use crate::opening::open_log;
use crate::status::Status;
use hs_host::{Host, MountFault};
use hs_run::take_turns;
use hs_values::Words;
use std::alloc::Global;

/// Does all that the program does, over any host and any database: opens the files of the database, takes turns over the items of the
/// input, logs each commit before it is told, and writes the lines of the transcript, as far as it comes, to the output. The
/// words are `hsql DATABASE`. The host has no name yet.
///
/// The status says how the run ended and why. Over a host that tells its bytes and is honest: whatever it is, what was
/// written is a prefix of the transcript over the commits of the log. At `Done` the input was read to its end, all of the
/// transcript was written, the log's groups are the texts of all commits, and the next run begins with the database with which
/// this one ended. Over a damaged log, and over one whose commits make what violates a constraint, nothing is written and no file is
/// changed, whatever the status is.
///
/// Before more of the input is asked for, all lines of the transcript are written up to the first turn that needs an item which isn't
/// whole in what was taken of it by then. A crash there leaves a log that has the commits that were found and those of these turns,
/// no fewer and no more.
///
/// Where anything was written, and at `Done` and `InputTooLong`, the commits of the log make one database alone, and the log is neither
/// damaged nor invalid. Where the status names a damage or a violated constraint, the log gives no database and has no
/// other damage and no other first violated constraint. It is the run that knows so, of the texts that it read: it is no law of all logs.
///
/// Where the log was all on the disk at the call, a crash at any moment of the run leaves a log that has the commits
/// that were found and the first so many of those that this run makes, and the next run begins with what these made. It has
/// all commits that were acknowledged by then, and none of the run's own until the first line is written. Only while a log
/// that wasn't born is being made may a crash leave another. The moment at which the run ends is a safe one too, but where
/// the disk failed or memory was wanted over a log that wasn't born: then it still isn't born, or it is whole. Where the log
/// wasn't all on the disk at the call, all that is so from the first byte on that is written. In no run is another file touched.
pub fn run_over<H: Host, E: Engine + Drop>(alloc: Global, words: &Words, host: &mut H) -> Status
    requires { IsUnnamed (H.standing host.old) }

    // The words, and the name of the host.
    ensures usage { (result ≡ Status.Usage) ↔ (database_of words.now ≡ None) }
    ensures untouched { result ≡ Status.Usage → host.new ≡ host.old }
    ensures name { (result ≡ Status.Usage → ⊥) → (result ≡ Status.NoMemory → ⊥) → (H.standing host.new).name ≡ database_of words.now }

    // What is written, and what is logged where input is asked for.
    ensures front { H.tells → IsHonest (H.standing host.old) → (opened : Opened) → IsOpened E.meaning (H.files host.old).log opened → WritesPrefix (H.written host.old) (H.written host.new) (all_told (ahead E.meaning (H.files host.old).log opened) (H.unread host.old)) }
    ensures opened_first { H.tells → IsHonest (H.standing host.old) → (¬ (H.written host.new ≡ H.written host.old)) ⊎ ((result ≡ Status.Done) ⊎ (result ≡ Status.InputTooLong)) → (opened : Opened) × IsOpened E.meaning (H.files host.old).log opened }
    ensures opened_alone { H.tells → IsHonest (H.standing host.old) → (¬ (H.written host.new ≡ H.written host.old)) ⊎ ((result ≡ Status.Done) ⊎ (result ≡ Status.InputTooLong)) → GivesOneAlone E.meaning (H.files host.old).log }
    ensures done { H.tells → IsHonest (H.standing host.old) → (opened : Opened) → IsOpened E.meaning (H.files host.old).log opened → result ≡ Status.Done → H.written host.new ≡ H.written host.old ++ all_told (ahead E.meaning (H.files host.old).log opened) (H.unread host.old) }
    ensures read { H.tells → result ≡ Status.Done → H.unread host.new ≡ [] }
    ensures done_within { H.tells → result ≡ Status.Done → length (H.unread host.old) ≤ 2 ^ 30 }
    ensures too_long { H.tells → result ≡ Status.InputTooLong → 2 ^ 30 < length (H.unread host.old) }
    ensures before_too_long { H.tells → IsHonest (H.standing host.old) → (opened : Opened) → IsOpened E.meaning (H.files host.old).log opened → result ≡ Status.InputTooLong → H.written host.new ≡ H.written host.old ++ told_within (2 ^ 30) (ahead E.meaning (H.files host.old).log opened) (H.unread host.old) }
    ensures prompt { H.tells → IsHonest (H.standing host.old) → (opened : Opened) → IsOpened E.meaning (H.files host.old).log opened → Since (IsPrompt (due_for (ahead E.meaning (H.files host.old).log opened)) (H.history host.old).now) (H.history host.old) (H.history host.new) }
    ensures prompt_log { H.tells → IsHonest (H.standing host.old) → (opened : Opened) → IsOpened E.meaning (H.files host.old).log opened → Since (IsPromptlyLogged (logged_for (texts_at (H.files host.old).log) (ahead E.meaning (H.files host.old).log opened)) (H.history host.old).now) (H.history host.old) (H.history host.new) }

    // What is logged.
    ensures log { H.tells → IsHonest (H.standing host.old) → (opened : Opened) → IsOpened E.meaning (H.files host.old).log opened → result ≡ Status.Done → IsWholeLog 1 (texts_at (H.files host.old).log ++ texts_from (ahead E.meaning (H.files host.old).log opened) (H.unread host.old)) (H.files host.new).log }
    ensures reopens { H.tells → IsHonest (H.standing host.old) → (opened : Opened) → IsOpened E.meaning (H.files host.old).log opened → result ≡ Status.Done → IsOpened E.meaning (H.files host.new).log (ended_with E.meaning (H.files host.old).log opened (H.unread host.old)) }
    ensures others { H.tells → IsHonest (H.standing host.old) → OnlyLog (H.files host.old) (H.files host.new) }

    // What a crash leaves, at each moment of the run.
    ensures crash { H.tells → IsHonest (H.standing host.old) → IsQuiet (H.files host.old) (H.history host.old).now → (opened : Opened) → IsOpened E.meaning (H.files host.old).log opened → Since (IsKept E.meaning (H.files host.old) opened (H.unread host.old) (H.written host.old) (H.history host.old).now) (H.history host.old) (H.history host.new) }
    ensures crash_later { H.tells → IsHonest (H.standing host.old) → (opened : Opened) → IsOpened E.meaning (H.files host.old).log opened → Since (IsSafeOnce E.meaning (H.files host.old).log opened (H.unread host.old) (H.written host.old)) (H.history host.old) (H.history host.new) }
    ensures safe { H.tells → IsHonest (H.standing host.old) → IsQuiet (H.files host.old) (H.history host.old).now → (opened : Opened) → IsOpened E.meaning (H.files host.old).log opened → HasLog (H.files host.old).log result → IsSafe E.meaning (H.files host.old).log opened (H.unread host.old) (H.written host.old) (H.history host.new).now }
    ensures left { H.tells → IsHonest (H.standing host.old) → IsQuiet (H.files host.old) (H.history host.old).now → (opened : Opened) → IsOpened E.meaning (H.files host.old).log opened → HasLog (H.files host.old).log result → Survives E.meaning (H.files host.old).log opened (H.unread host.old) (H.written host.old) (H.written host.new) (H.files host.new).log }
    ensures begun { H.tells → IsHonest (H.standing host.old) → is_born (H.files host.old).log ≡ false → (is_born (H.files host.new).log ≡ false) ⊎ Survives E.meaning (H.files host.old).log (nothing_logged E.meaning) (H.unread host.old) (H.written host.old) (H.written host.new) (H.files host.new).log }
    ensures alone { H.tells → IsHonest (H.standing host.old) → Since (IsLater (H.history host.old).now) (H.history host.old) (H.history host.new) }

    // Faults of the devices.
    ensures input_fault { result ≡ Status.InputFault → Rose (H.input_faults host.old) (H.input_faults host.new) }
    ensures output_fault { result ≡ Status.OutputFault → Rose (H.output_faults host.old) (H.output_faults host.new) }
    ensures disk_fault { result ≡ Status.DiskFault → Rose (H.disk_faults host.old) (H.disk_faults host.new) }
    ensures no_fault { (result ≡ Status.InputFault → ⊥) → (result ≡ Status.OutputFault → ⊥) → (result ≡ Status.DiskFault → ⊥) → NoFaults H.Source H.Host.own host.old host.new }

    // Damaged files, and a log that makes what violates a constraint.
    ensures foreign { H.tells → result ≡ Status.Damaged Damage.Foreign → IsForeign (H.standing host.old) }
    ensures own { H.tells → IsForeign (H.standing host.old) → (result ≡ Status.Usage) ⊎ ((result ≡ Status.Damaged Damage.Foreign) ⊎ ((result ≡ Status.DiskFault) ⊎ (result ≡ Status.NoMemory))) }
    ensures foreign_kept { H.tells → result ≡ Status.Damaged Damage.Foreign → H.files host.new ≡ H.files host.old }
    ensures damaged { H.tells → IsHonest (H.standing host.old) → (number : ℕ) → result ≡ Status.Damaged (Damage.Log number) → IsDamagedAt E.meaning (H.files host.old).log number }
    ensures damaged_alone { H.tells → IsHonest (H.standing host.old) → (number : ℕ) → result ≡ Status.Damaged (Damage.Log number) → IsDamagedAlone E.meaning (H.files host.old).log number }
    ensures damage { H.tells → IsHonest (H.standing host.old) → (number : ℕ) → IsDamagedAt E.meaning (H.files host.old).log number → (result ≡ Status.Usage) ⊎ ((result ≡ Status.Damaged Damage.Foreign) ⊎ ((result ≡ Status.Damaged (Damage.Log number)) ⊎ ((result ≡ Status.DiskFault) ⊎ (result ≡ Status.NoMemory)))) }
    ensures silent { is_damaged result ≡ true → (H.written host.new ≡ H.written host.old) × (H.unread host.new ≡ H.unread host.old) }
    ensures kept { H.tells → IsHonest (H.standing host.old) → is_damaged result ≡ true → H.files host.new ≡ H.files host.old }
    ensures damaged_kept { H.tells → IsHonest (H.standing host.old) → (number : ℕ) → IsDamagedAt E.meaning (H.files host.old).log number → H.files host.new ≡ H.files host.old }
    ensures damaged_silent { H.tells → IsHonest (H.standing host.old) → (number : ℕ) → IsDamagedAt E.meaning (H.files host.old).log number → H.written host.new ≡ H.written host.old }
    ensures invalid { H.tells → IsHonest (H.standing host.old) → (name : List ℕ) → result ≡ Status.Damaged (Damage.Invalid name) → IsInvalid E.meaning (H.files host.old).log name }
    ensures invalid_alone { H.tells → IsHonest (H.standing host.old) → (name : List ℕ) → result ≡ Status.Damaged (Damage.Invalid name) → IsInvalidAlone E.meaning (H.files host.old).log name }
    ensures violation { H.tells → IsHonest (H.standing host.old) → (name : List ℕ) → IsInvalid E.meaning (H.files host.old).log name → (result ≡ Status.Usage) ⊎ ((result ≡ Status.Damaged Damage.Foreign) ⊎ ((result ≡ Status.Damaged (Damage.Invalid name)) ⊎ ((result ≡ Status.DiskFault) ⊎ (result ≡ Status.NoMemory)))) }
    ensures invalid_kept { H.tells → IsHonest (H.standing host.old) → (name : List ℕ) → IsInvalid E.meaning (H.files host.old).log name → H.files host.new ≡ H.files host.old }
    ensures invalid_silent { H.tells → IsHonest (H.standing host.old) → (name : List ℕ) → IsInvalid E.meaning (H.files host.old).log name → H.written host.new ≡ H.written host.old }

    // Where no device fails, each run ends as it is to end, or for want of memory.
    ensures complete { H.tells → IsHonest (H.standing host.old) → (IsForeign (H.standing host.old) → ⊥) → (database_of words.now ≡ None → ⊥) → (Rose (H.input_faults host.old) (H.input_faults host.new) → ⊥) → (Rose (H.output_faults host.old) (H.output_faults host.new) → ⊥) → (Rose (H.disk_faults host.old) (H.disk_faults host.new) → ⊥) → (opened : Opened) → IsOpened E.meaning (H.files host.old).log opened → length (H.unread host.old) ≤ 2 ^ 30 → (result ≡ Status.Done) ⊎ (result ≡ Status.NoMemory) }
    ensures complete_too_long { H.tells → IsHonest (H.standing host.old) → (IsForeign (H.standing host.old) → ⊥) → (database_of words.now ≡ None → ⊥) → (Rose (H.input_faults host.old) (H.input_faults host.new) → ⊥) → (Rose (H.output_faults host.old) (H.output_faults host.new) → ⊥) → (Rose (H.disk_faults host.old) (H.disk_faults host.new) → ⊥) → (opened : Opened) → IsOpened E.meaning (H.files host.old).log opened → 2 ^ 30 < length (H.unread host.old) → (result ≡ Status.InputTooLong) ⊎ (result ≡ Status.NoMemory) }
    ensures complete_damaged { H.tells → IsHonest (H.standing host.old) → (IsForeign (H.standing host.old) → ⊥) → (database_of words.now ≡ None → ⊥) → (Rose (H.disk_faults host.old) (H.disk_faults host.new) → ⊥) → (number : ℕ) → IsDamagedAt E.meaning (H.files host.old).log number → (result ≡ Status.Damaged (Damage.Log number)) ⊎ (result ≡ Status.NoMemory) }
    ensures complete_invalid { H.tells → IsHonest (H.standing host.old) → (IsForeign (H.standing host.old) → ⊥) → (database_of words.now ≡ None → ⊥) → (Rose (H.disk_faults host.old) (H.disk_faults host.new) → ⊥) → (name : List ℕ) → IsInvalid E.meaning (H.files host.old).log name → (result ≡ Status.Damaged (Damage.Invalid name)) ⊎ (result ≡ Status.NoMemory) }
{
    let Some(name) = database_of(words) else {
        return Status::Usage;
    };
    serve::<H, E>(alloc, name.as_str(), host)
}

// Opens the files of a database of this name, and then runs.
fn serve<H: Host, E: Engine + Drop>(alloc: Global, name: &str, host: &mut H) -> Status
    requires { IsUnnamed (H.standing host.old) }
    ensures named { (result ≡ Status.NoMemory → ⊥) → (H.standing host.new).name ≡ Some name.now }
    ensures runs { Told H.Source H.Host.own host.old → Runs E.meaning (H.files host.old) (H.unread host.old) (H.written host.old) (H.history host.old) (H.files host.new) (H.written host.new) (H.history host.new) result }
    ensures read { H.tells → result ≡ Status.Done → (H.unread host.new ≡ []) × (length (H.unread host.old) ≤ 2 ^ 30) }
    ensures too_long { H.tells → result ≡ Status.InputTooLong → 2 ^ 30 < length (H.unread host.old) }
    ensures ends { Ends H.Source H.Host.own host.old host.new result }
    ensures own { H.tells → IsForeign (H.standing host.old) → (result ≡ Status.Damaged Damage.Foreign) ⊎ ((result ≡ Status.DiskFault) ⊎ (result ≡ Status.NoMemory)) }
{
    if let Err(status) = mount(name, host) {
        return status;
    }
    work::<H, E>(alloc, host)
}

// Opens the files of a database.
fn mount<H: Host>(name: &str, host: &mut H) -> Result<(), Status>
    requires { IsUnnamed (H.standing host.old) }
    ensures opened { OnOk result (IsOpen (H.standing host.new)) }
    ensures named { OnOk result ((H.standing host.new).name ≡ Some name.now) }
    ensures named_at { IfErr result (λ status. (status ≡ Status.NoMemory → ⊥) → (H.standing host.new).name ≡ Some name.now) }
    ensures own { H.tells → OnOk result (IsForeign (H.standing host.old) → ⊥) }
    ensures mounts { Mounts H.Source H.Host.own host.old host.new result }
{
    match host.mount(name) {
        Ok(()) => Ok(()),
        Err(MountFault::Foreign) => Err(Status::Damaged(Damage::Foreign)),
        Err(MountFault::Fault) => Err(Status::DiskFault),
        Err(MountFault::NoMemory) => Err(Status::NoMemory),
    }
}

// Opens the log, and takes turns until none is left.
fn work<H: Host, E: Engine + Drop>(alloc: Global, host: &mut H) -> Status
    requires { IsOpen (H.standing host.old) }
    ensures standing { H.standing host.new ≡ H.standing host.old }
    ensures runs { Told H.Source H.Host.own host.old → Runs E.meaning (H.files host.old) (H.unread host.old) (H.written host.old) (H.history host.old) (H.files host.new) (H.written host.new) (H.history host.new) result }
    ensures read { H.tells → result ≡ Status.Done → (H.unread host.new ≡ []) × (length (H.unread host.old) ≤ 2 ^ 30) }
    ensures too_long { H.tells → result ≡ Status.InputTooLong → 2 ^ 30 < length (H.unread host.old) }
    ensures ends { Ends H.Source H.Host.own host.old host.new result }
    ensures own { result ≡ Status.Damaged Damage.Foreign → ⊥ }
{
    let opening = match open_log::<H, E>(alloc, host) {
        Ok(opening) => opening,
        Err(fault) => return Status::from(fault),
    };
    let size = opening.log.size();
    let turns = opening.engine.turns(size);
    match take_turns(alloc, turns, opening.log, host) {
        Ok(()) => Status::Done,
        Err(stop) => Status::from(stop),
    }
}
