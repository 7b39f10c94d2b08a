// What a run begins with: the database that its log gives.
ghost use Rattle.std.specs.Prelude.{◌≡◌, ℕ, List, true, false, IfOk, OnOk, OnErr, IsErrOf, MatchResult};
ghost use Rattle.hs_host.specs.Files.{IsOpen};
ghost use Rattle.hs_host.specs.Moments.{Since};
ghost use Rattle.hs_host.specs.Used.{Told, Moves, ReadsFiles};
ghost use Rattle.hs_log.specs.Log.{IsUnbornOrNew, is_born, has_header, is_broken, texts_of};
ghost use Rattle.hs_log.specs.LogReading.{IsReading, TakesText, count_in, left_in};
ghost use Rattle.hs_run.specs.Stop.{NoFaults};
ghost use Rattle.hs_program.specs.Crash.{IsFound, IsPreparing, IsQuiet};
ghost use Rattle.hs_program.specs.Damaged.{IsDamagedAlone, IsDamagedAt, IsInvalidAlone, IsOnlyDamage};
ghost use Rattle.hs_program.specs.Opening.{IsInvalid};
ghost use Rattle.hs_program.specs.Run.{MakeInvalid, Opens, Redoes};
ghost use Rattle.hs_program.specs.Stop.{OpenStops};

use crate::engine::Engine;
use crate::fault::OpenFault;
use hs_host::{FileKind, Host};
use hs_log::{Log, LogReader, OpenedLog};
use std::alloc::Global;

/// What a log gives, and the log.
#[derive(Drop)]
pub struct Opening<E> {
    pub engine: E,
    pub log: Log,
}

/// Opens the log: an unborn one is made anew, and the commits of a born one are made again.
pub fn open_log<H: Host, E: Engine + Drop>(
    alloc: Global,
    host: &mut H,
) -> Result<Opening<E>, OpenFault>
    requires { IsOpen (H.standing host.old) }
    ensures opens { IfOk result (Opens E.meaning E.stands_for H.Source H.Host.own host.old host.new) }
    ensures damaged { Told H.Source H.Host.own host.old → (number : ℕ) → IsErrOf result (OpenFault.Damaged number) → IsDamagedAt E.meaning (H.files host.old).log number × IsDamagedAlone E.meaning (H.files host.old).log number × (H.files host.new ≡ H.files host.old) }
    ensures invalid { Told H.Source H.Host.own host.old → (name : List ℕ) → IsErrOf result (OpenFault.Invalid name) → IsInvalid E.meaning (H.files host.old).log name × IsInvalidAlone E.meaning (H.files host.old).log name × (H.files host.new ≡ H.files host.old) }
    ensures kept { Told H.Source H.Host.own host.old → ((number : ℕ) → IsDamagedAt E.meaning (H.files host.old).log number → H.files host.new ≡ H.files host.old) × ((name : List ℕ) → IsInvalid E.meaning (H.files host.old).log name → H.files host.new ≡ H.files host.old) }
    ensures moments { Told H.Source H.Host.own host.old → IsQuiet (H.files host.old) (H.history host.old).now → Since (IsFound E.meaning (H.files host.old) (H.history host.old).now) (H.history host.old) (H.history host.new) }
    ensures moves { Moves H.Source H.Host.own FileKind.Log (IsPreparing (H.history host.old).now) host.old host.new }
    ensures stops { MatchResult result (λ _. NoFaults H.Source H.Host.own host.old host.new) (OpenStops H.Source H.Host.own host.old host.new) }
    ensures begun { Told H.Source H.Host.own host.old → is_born (H.files host.old).log ≡ false → OnErr result (IsUnbornOrNew (H.files host.new).log) }
{
    match Log::open(alloc, host)? {
        OpenedLog::New(log) => Ok(Opening {
            engine: E::new(alloc),
            log,
        }),
        OpenedLog::Born(reader) => read_log(alloc, host, reader),
    }
}

// The commits of a born log, made again.
fn read_log<H: Host, E: Engine + Drop>(
    alloc: Global,
    host: &mut H,
    reader: LogReader,
) -> Result<Opening<E>, OpenFault>
    requires reading { IsReading H.Source H.Host.own reader host.old }
    requires none { count_in reader ≡ 0 }
    requires begun { Told H.Source H.Host.own host.old → (has_header 1 (H.files host.old).log ≡ true) × (left_in reader (H.files host.old).log ≡ texts_of (H.files host.old).log) }
    ensures opens { IfOk result (Opens E.meaning E.stands_for H.Source H.Host.own host.old host.new) }
    ensures damaged { Told H.Source H.Host.own host.old → (number : ℕ) → IsErrOf result (OpenFault.Damaged number) → IsDamagedAt E.meaning (H.files host.old).log number × IsDamagedAlone E.meaning (H.files host.old).log number × (H.files host.new ≡ H.files host.old) }
    ensures invalid { Told H.Source H.Host.own host.old → (name : List ℕ) → IsErrOf result (OpenFault.Invalid name) → IsInvalid E.meaning (H.files host.old).log name × IsInvalidAlone E.meaning (H.files host.old).log name × (H.files host.new ≡ H.files host.old) }
    ensures kept { Told H.Source H.Host.own host.old → ((number : ℕ) → IsDamagedAt E.meaning (H.files host.old).log number → H.files host.new ≡ H.files host.old) × ((name : List ℕ) → IsInvalid E.meaning (H.files host.old).log name → H.files host.new ≡ H.files host.old) }
    ensures moments { Told H.Source H.Host.own host.old → IsQuiet (H.files host.old) (H.history host.old).now → Since (IsFound E.meaning (H.files host.old) (H.history host.old).now) (H.history host.old) (H.history host.new) }
    ensures moves { Moves H.Source H.Host.own FileKind.Log (IsPreparing (H.history host.old).now) host.old host.new }
    ensures stops { MatchResult result (λ _. NoFaults H.Source H.Host.own host.old host.new) (OpenStops H.Source H.Host.own host.old host.new) }
{
    let mut reader = reader;
    let engine: E = match redo_all(alloc, host, &mut reader) {
        Ok(engine) => engine,
        Err(fault) => return Err(fault),
    };
    let last = engine.last();
    let log = reader.settle(host, last)?;
    Ok(Opening { engine, log })
}

// The commits of a log, made one after another. What they make is judged when all are.
fn redo_all<H: Host, E: Engine + Drop>(
    alloc: Global,
    host: &mut H,
    reader: &mut LogReader,
) -> Result<E, OpenFault>
    requires reading { IsReading H.Source H.Host.own reader.old host.old }
    requires none { count_in reader.old ≡ 0 }
    ensures redoes { IfOk result (Redoes E.meaning E.stands_for H.Source H.Host.own reader.old host.old) }
    ensures damaged { Told H.Source H.Host.own host.old → (number : ℕ) → IsErrOf result (OpenFault.Damaged number) → IsOnlyDamage E.meaning (left_in reader.old (H.files host.old).log) (is_broken (H.files host.old).log) number }
    ensures invalid { Told H.Source H.Host.own host.old → (name : List ℕ) → IsErrOf result (OpenFault.Invalid name) → MakeInvalid E.meaning reader.old (H.files host.old).log name }
    ensures whole { Told H.Source H.Host.own host.old → OnOk result (TakesText (H.files host.new).log reader.new false reader.new) }
    ensures reading { OnOk result (IsReading H.Source H.Host.own reader.new host.new) }
    ensures reads { ReadsFiles H.Source H.Host.own host.old host.new }
    ensures stops { MatchResult result (λ _. NoFaults H.Source H.Host.own host.old host.new) (OpenStops H.Source H.Host.own host.old host.new) }
{
    let mut engine = E::new(alloc);
    let mut count: u64 = 0;
    while reader.advance(host)? {
        if !engine.redo(reader.text())? {
            return Err(OpenFault::Damaged(count + 1));
        }
        count += 1;
    }
    match engine.judge()? {
        Some(name) => Err(OpenFault::Invalid(name)),
        None => Ok(engine),
    }
}
