// The top call.
ghost use Rattle.std.specs.Prelude.{◌≡◌, ◌⊎◌, ◌↔◌, ℕ, ◌^◌, ◌<◌, ◌≤◌, [], ◌++◌, true, false, None, length, List, count_by};
ghost use Rattle.hs_engine.specs.Runs.{answers_among};
ghost use Rattle.hs_engine.specs.Standing.{sql_meaning};
ghost use Rattle.hs_entries.specs.Items.{items};
ghost use Rattle.hs_host.specs.Files.{IsUnnamed, IsOpen, IsForeign, IsHonest};
ghost use Rattle.hs_host.specs.Host.{Rose};
ghost use Rattle.hs_host.specs.Moments.{Since};
ghost use Rattle.hs_language.specs.Sql.{is_valid};
ghost use Rattle.hs_log.specs.Log.{IsWholeLog, is_born};
ghost use Rattle.hs_program.specs.Command.{database_of};
ghost use Rattle.hs_program.specs.Crash.{IsQuiet, IsSafe, IsSafeOnce, IsKept, Survives};
ghost use Rattle.hs_program.specs.Meaning.{Opened, nothing_logged};
ghost use Rattle.hs_program.specs.Opening.{texts_at};
ghost use Rattle.hs_program.specs.Run.{HasLog};
ghost use Rattle.hs_program.specs.Stop.{TellsDamage, is_damaged};
ghost use Rattle.hs_run.specs.Crash.{IsLater, OnlyLog};
ghost use Rattle.hs_run.specs.Holding.{WritesPrefix};
ghost use Rattle.hs_run.specs.Prompt.{IsPrompt, IsPromptlyLogged};
ghost use Rattle.hs_run.specs.Stop.{NoFaults};
ghost use Rattle.hs_top.specs.Runs.{Gives, GivesOne, IsDamaged, IsDamagedOnly, Violates, ViolatesOnly, after_commits, all_turns, commit_texts, due, due_log, ended, history, language, transcript, transcript_within, turns_lines, turns_told};
ghost use Rattle.hs_turns.specs.Histories.{state};
ghost use Rattle.hs_turns.specs.Laws.{is_item};
ghost use Rattle.hs_turns.specs.Lines.{printed, replies_among};
ghost use Rattle.hs_turns.specs.Promises.{AreMade, EachEnded, IsCommitted, IsFirst, IsInOrder, IsSerial, IsSnapshot};

use hs_engine::SqlEngine;
use hs_host::Host;
use hs_program::{Damage, Status, run_over};
use hs_values::Words;
use std::alloc::Global;

/// Does all that the program does, over any host: opens the files of a database of SQL, takes turns over the items of the input, logs
/// each commit before it is told, and writes the lines of the transcript, as far as it comes, to the output. The words are
/// `hsql DATABASE`. The host has no name yet.
///
/// Behind its first line the transcript has the lines of the turns of a machine, whose sessions hold claims and wait for each other by
/// the model of transactions that the database has: LOCKS, MVLOCKS or MVCC. Each item of the input has one reply among them. Over a log
/// that a run may begin with, that is the item's one line that begins with `ok` or `refused` behind its session. After any number of
/// turns over such a log, a transaction has what the model promises that it ran under. Each commit is that of one transaction or a
/// definition's, and leaves a valid database.
///
/// Under LOCKS, and under MVLOCKS where it may write, a transaction at REPEATABLE READ or SERIALIZABLE answers as if it ran alone on the
/// commits just before its end, and its commit makes what its statements make there. So such transactions are as if they were run one at
/// a time, in the order of their commits. A read-only one under MVLOCKS, and one at REPEATABLE READ or SERIALIZABLE under MVCC, reads a
/// snapshot: it answers as if it ran alone on the database as it was when it began, with its own changes. Such a one under MVCC changes
/// no row that a commit changed since it began.
///
/// The status says how the run ended and why. Over a host that tells its bytes and is honest: whatever it is, what was
/// written is a prefix of the transcript over the commits of the log. At `Done` the input was read to its end, all of the
/// transcript was written, the log's groups are the texts of all commits, and the next run begins with the database with which
/// this one ended. Over a damaged log, and over one whose commits make what violates a constraint, nothing is written and no file is
/// changed, whatever the status is.
///
/// Before more of the input is asked for, all lines are written that the machine tells before its first turn that needs an item which
/// isn't whole in what was taken of the input by then. A crash there leaves a log that has the commits that were found and those of
/// these turns, no fewer and no more.
///
/// Where anything was written, and at `Done` and `InputTooLong`, the commits of the log make one database alone, and the log is neither
/// damaged nor invalid. Where the status names a damage or a violated constraint, the log gives no database and has no
/// other damage and no other first violated constraint. It is the run that knows so, of the texts that it read: it is no law of all logs.
///
/// Where the log was all on the disk at the call, a crash at any moment of the run leaves a log that has the commits
/// that were found and the first so many of those that this run makes. The next run begins with what these made, which is the state of
/// the machine behind so many commits. It has all commits that were acknowledged by then, and none of the run's own until the first
/// line is written. Only while a log that wasn't born is being made may a crash leave another. The moment at which the run ends is a
/// safe one too, but where the disk failed or memory was wanted over a log that wasn't born: then it still isn't born, or it is whole.
/// Where the log wasn't all on the disk at the call, as after a crash, all this is so from the first byte on that is written. In no
/// run is another file touched.
pub fn run<H: Host>(alloc: Global, words: &Words, host: &mut H) -> Status
    requires { IsUnnamed (H.standing host.old) }

    // The words, and the name of the host.
    ensures usage { (result ≡ Status.Usage) ↔ (database_of words.now ≡ None) }
    ensures untouched { result ≡ Status.Usage → host.new ≡ host.old }
    ensures name { (result ≡ Status.Usage → ⊥) → (result ≡ Status.NoMemory → ⊥) → (H.standing host.new).name ≡ database_of words.now }

    // What is written, and what is logged where input is asked for.
    ensures front { H.tells → IsHonest (H.standing host.old) → (opened : Opened) → Gives (H.files host.old).log opened → WritesPrefix (H.written host.old) (H.written host.new) (transcript (H.files host.old).log opened (H.unread host.old)) }
    ensures opened_first { H.tells → IsHonest (H.standing host.old) → (¬ (H.written host.new ≡ H.written host.old)) ⊎ ((result ≡ Status.Done) ⊎ (result ≡ Status.InputTooLong)) → (opened : Opened) × Gives (H.files host.old).log opened }
    ensures opened_alone { H.tells → IsHonest (H.standing host.old) → (¬ (H.written host.new ≡ H.written host.old)) ⊎ ((result ≡ Status.Done) ⊎ (result ≡ Status.InputTooLong)) → GivesOne (H.files host.old).log }
    ensures done { H.tells → IsHonest (H.standing host.old) → (opened : Opened) → Gives (H.files host.old).log opened → result ≡ Status.Done → H.written host.new ≡ H.written host.old ++ transcript (H.files host.old).log opened (H.unread host.old) }
    ensures read { H.tells → result ≡ Status.Done → H.unread host.new ≡ [] }
    ensures done_within { H.tells → result ≡ Status.Done → length (H.unread host.old) ≤ 2 ^ 30 }
    ensures too_long { H.tells → result ≡ Status.InputTooLong → 2 ^ 30 < length (H.unread host.old) }
    ensures before_too_long { H.tells → IsHonest (H.standing host.old) → (opened : Opened) → Gives (H.files host.old).log opened → result ≡ Status.InputTooLong → H.written host.new ≡ H.written host.old ++ transcript_within (H.files host.old).log opened (H.unread host.old) (2 ^ 30) }
    ensures prompt { H.tells → IsHonest (H.standing host.old) → (opened : Opened) → Gives (H.files host.old).log opened → Since (IsPrompt (due (H.files host.old).log opened) (H.history host.old).now) (H.history host.old) (H.history host.new) }
    ensures prompt_log { H.tells → IsHonest (H.standing host.old) → (opened : Opened) → Gives (H.files host.old).log opened → Since (IsPromptlyLogged (due_log (H.files host.old).log opened) (H.history host.old).now) (H.history host.old) (H.history host.new) }

    // The turns of the machine, and what the models of transactions promise after any number of them.
    ensures turns { (opened : Opened) → turns_told (H.files host.old).log opened (H.unread host.old) ≡ printed (turns_lines (H.files host.old).log opened (H.unread host.old)) }
    ensures replied { (opened : Opened) (number : ℕ) → replies_among number (turns_lines (H.files host.old).log opened (H.unread host.old)) ≡ count_by (is_item number) (items 1 (H.unread host.old)) }
    ensures answered { (opened : Opened) → Gives (H.files host.old).log opened → (number : ℕ) → answers_among number (turns_lines (H.files host.old).log opened (H.unread host.old)) ≡ count_by (is_item number) (items 1 (H.unread host.old)) }
    ensures serial { (opened : Opened) → Gives (H.files host.old).log opened → (n : ℕ) → EachEnded (history (H.files host.old).log opened (H.unread host.old) n) (IsSerial (language (H.files host.old).log opened) opened.database) }
    ensures in_order { (opened : Opened) → Gives (H.files host.old).log opened → (n : ℕ) → EachEnded (history (H.files host.old).log opened (H.unread host.old) n) (IsInOrder (language (H.files host.old).log opened) opened.database) }
    ensures committed { (opened : Opened) → Gives (H.files host.old).log opened → (n : ℕ) → EachEnded (history (H.files host.old).log opened (H.unread host.old) n) IsCommitted }
    ensures made_by { (opened : Opened) → Gives (H.files host.old).log opened → (n : ℕ) → AreMade (history (H.files host.old).log opened (H.unread host.old) n).commits (history (H.files host.old).log opened (H.unread host.old) n).ended }
    ensures snapshot { (opened : Opened) → Gives (H.files host.old).log opened → (n : ℕ) → EachEnded (history (H.files host.old).log opened (H.unread host.old) n) (IsSnapshot (language (H.files host.old).log opened) opened.database) }
    ensures first { (opened : Opened) → Gives (H.files host.old).log opened → (n : ℕ) → EachEnded (history (H.files host.old).log opened (H.unread host.old) n) IsFirst }
    ensures valid { (opened : Opened) → Gives (H.files host.old).log opened → (n k : ℕ) → is_valid (state opened.database (history (H.files host.old).log opened (H.unread host.old) n).commits k) ≡ true }

    // What is logged.
    ensures log { H.tells → IsHonest (H.standing host.old) → (opened : Opened) → Gives (H.files host.old).log opened → result ≡ Status.Done → IsWholeLog 1 (texts_at (H.files host.old).log ++ commit_texts (H.files host.old).log opened (H.unread host.old)) (H.files host.new).log }
    ensures reopens { H.tells → IsHonest (H.standing host.old) → (opened : Opened) → Gives (H.files host.old).log opened → result ≡ Status.Done → Gives (H.files host.new).log (ended (H.files host.old).log opened (H.unread host.old)) }
    ensures others { H.tells → IsHonest (H.standing host.old) → OnlyLog (H.files host.old) (H.files host.new) }

    // What a crash leaves, at each moment of the run: the state of the machine behind some of its commits.
    ensures states { (opened : Opened) (k : ℕ) → (after_commits (H.files host.old).log opened (H.unread host.old) k).database ≡ state opened.database (history (H.files host.old).log opened (H.unread host.old) (all_turns (H.files host.old).log opened (H.unread host.old))).commits k }
    ensures crash { H.tells → IsHonest (H.standing host.old) → IsQuiet (H.files host.old) (H.history host.old).now → (opened : Opened) → Gives (H.files host.old).log opened → Since (IsKept sql_meaning (H.files host.old) opened (H.unread host.old) (H.written host.old) (H.history host.old).now) (H.history host.old) (H.history host.new) }
    ensures crash_later { H.tells → IsHonest (H.standing host.old) → (opened : Opened) → Gives (H.files host.old).log opened → Since (IsSafeOnce sql_meaning (H.files host.old).log opened (H.unread host.old) (H.written host.old)) (H.history host.old) (H.history host.new) }
    ensures safe { H.tells → IsHonest (H.standing host.old) → IsQuiet (H.files host.old) (H.history host.old).now → (opened : Opened) → Gives (H.files host.old).log opened → HasLog (H.files host.old).log result → IsSafe sql_meaning (H.files host.old).log opened (H.unread host.old) (H.written host.old) (H.history host.new).now }
    ensures left { H.tells → IsHonest (H.standing host.old) → IsQuiet (H.files host.old) (H.history host.old).now → (opened : Opened) → Gives (H.files host.old).log opened → HasLog (H.files host.old).log result → Survives sql_meaning (H.files host.old).log opened (H.unread host.old) (H.written host.old) (H.written host.new) (H.files host.new).log }
    ensures begun { H.tells → IsHonest (H.standing host.old) → is_born (H.files host.old).log ≡ false → (is_born (H.files host.new).log ≡ false) ⊎ Survives sql_meaning (H.files host.old).log (nothing_logged sql_meaning) (H.unread host.old) (H.written host.old) (H.written host.new) (H.files host.new).log }
    ensures alone { H.tells → IsHonest (H.standing host.old) → Since (IsLater (H.history host.old).now) (H.history host.old) (H.history host.new) }

    // Faults of the devices.
    ensures input_fault { result ≡ Status.InputFault → Rose (H.input_faults host.old) (H.input_faults host.new) }
    ensures output_fault { result ≡ Status.OutputFault → Rose (H.output_faults host.old) (H.output_faults host.new) }
    ensures disk_fault { result ≡ Status.DiskFault → Rose (H.disk_faults host.old) (H.disk_faults host.new) }
    ensures no_fault { (result ≡ Status.InputFault → ⊥) → (result ≡ Status.OutputFault → ⊥) → (result ≡ Status.DiskFault → ⊥) → NoFaults H.Source H.Host.own host.old host.new }

    // Damaged files, and a log that makes what violates a constraint.
    ensures foreign { H.tells → result ≡ Status.Damaged Damage.Foreign → IsForeign (H.standing host.old) }
    ensures own { H.tells → IsForeign (H.standing host.old) → (result ≡ Status.Usage) ⊎ ((result ≡ Status.Damaged Damage.Foreign) ⊎ ((result ≡ Status.DiskFault) ⊎ (result ≡ Status.NoMemory))) }
    ensures foreign_kept { H.tells → result ≡ Status.Damaged Damage.Foreign → H.files host.new ≡ H.files host.old }
    ensures damaged { H.tells → IsHonest (H.standing host.old) → (number : ℕ) → result ≡ Status.Damaged (Damage.Log number) → IsDamaged (H.files host.old).log number }
    ensures damaged_alone { H.tells → IsHonest (H.standing host.old) → (number : ℕ) → result ≡ Status.Damaged (Damage.Log number) → IsDamagedOnly (H.files host.old).log number }
    ensures damage { H.tells → IsHonest (H.standing host.old) → (number : ℕ) → IsDamaged (H.files host.old).log number → TellsDamage (Damage.Log number) result }
    ensures silent { is_damaged result ≡ true → (H.written host.new ≡ H.written host.old) × (H.unread host.new ≡ H.unread host.old) }
    ensures kept { H.tells → IsHonest (H.standing host.old) → is_damaged result ≡ true → H.files host.new ≡ H.files host.old }
    ensures damaged_kept { H.tells → IsHonest (H.standing host.old) → (number : ℕ) → IsDamaged (H.files host.old).log number → H.files host.new ≡ H.files host.old }
    ensures damaged_silent { H.tells → IsHonest (H.standing host.old) → (number : ℕ) → IsDamaged (H.files host.old).log number → H.written host.new ≡ H.written host.old }
    ensures invalid { H.tells → IsHonest (H.standing host.old) → (name : List ℕ) → result ≡ Status.Damaged (Damage.Invalid name) → Violates (H.files host.old).log name }
    ensures invalid_alone { H.tells → IsHonest (H.standing host.old) → (name : List ℕ) → result ≡ Status.Damaged (Damage.Invalid name) → ViolatesOnly (H.files host.old).log name }
    ensures violation { H.tells → IsHonest (H.standing host.old) → (name : List ℕ) → Violates (H.files host.old).log name → TellsDamage (Damage.Invalid name) result }
    ensures invalid_kept { H.tells → IsHonest (H.standing host.old) → (name : List ℕ) → Violates (H.files host.old).log name → H.files host.new ≡ H.files host.old }
    ensures invalid_silent { H.tells → IsHonest (H.standing host.old) → (name : List ℕ) → Violates (H.files host.old).log name → H.written host.new ≡ H.written host.old }

    // Where no device fails, each run ends as it is to end, or for want of memory.
    ensures complete { H.tells → IsHonest (H.standing host.old) → (IsForeign (H.standing host.old) → ⊥) → (database_of words.now ≡ None → ⊥) → (Rose (H.input_faults host.old) (H.input_faults host.new) → ⊥) → (Rose (H.output_faults host.old) (H.output_faults host.new) → ⊥) → (Rose (H.disk_faults host.old) (H.disk_faults host.new) → ⊥) → (opened : Opened) → Gives (H.files host.old).log opened → length (H.unread host.old) ≤ 2 ^ 30 → (result ≡ Status.Done) ⊎ (result ≡ Status.NoMemory) }
    ensures complete_too_long { H.tells → IsHonest (H.standing host.old) → (IsForeign (H.standing host.old) → ⊥) → (database_of words.now ≡ None → ⊥) → (Rose (H.input_faults host.old) (H.input_faults host.new) → ⊥) → (Rose (H.output_faults host.old) (H.output_faults host.new) → ⊥) → (Rose (H.disk_faults host.old) (H.disk_faults host.new) → ⊥) → (opened : Opened) → Gives (H.files host.old).log opened → 2 ^ 30 < length (H.unread host.old) → (result ≡ Status.InputTooLong) ⊎ (result ≡ Status.NoMemory) }
    ensures complete_damaged { H.tells → IsHonest (H.standing host.old) → (IsForeign (H.standing host.old) → ⊥) → (database_of words.now ≡ None → ⊥) → (Rose (H.disk_faults host.old) (H.disk_faults host.new) → ⊥) → (number : ℕ) → IsDamaged (H.files host.old).log number → (result ≡ Status.Damaged (Damage.Log number)) ⊎ (result ≡ Status.NoMemory) }
    ensures complete_invalid { H.tells → IsHonest (H.standing host.old) → (IsForeign (H.standing host.old) → ⊥) → (database_of words.now ≡ None → ⊥) → (Rose (H.disk_faults host.old) (H.disk_faults host.new) → ⊥) → (name : List ℕ) → Violates (H.files host.old).log name → (result ≡ Status.Damaged (Damage.Invalid name)) ⊎ (result ≡ Status.NoMemory) }
{
    run_over::<H, SqlEngine>(alloc, words, host)
}
