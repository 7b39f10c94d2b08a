// A run over a host on which nothing fails.
ghost use Rattle.std.specs.Prelude.{◌≡◌, ◌⊎◌, ℕ, ◌<◌, ◌≤◌, ◌^◌, List, None, length};
ghost use Rattle.hs_host.specs.Files.{IsUnnamed};
ghost use Rattle.hs_top.specs.Log.{IsDamagedAt, IsInvalid, IsOpened, Opened, database_of, sql_meaning};

use hs_host::{Host, Source};
use hs_memhost::NeverFails;
use hs_top::{Damage, Status, run};
use hs_values::Words;
use std::alloc::Global;

/// Runs over a host in memory on which nothing fails. The run ends as its arguments, its log and its input say, or for want
/// of memory.
pub fn run_where_nothing_fails(alloc: Global, words: &Words, host: &mut NeverFails) -> Status
    requires { IsUnnamed (⟦<NeverFails as Host>⟧.standing host.old) }
    ensures usage { database_of words.now ≡ None → result ≡ Status.Usage }
    ensures done { (database_of words.now ≡ None → ⊥) → (opened : Opened) → IsOpened sql_meaning (⟦<NeverFails as Host>⟧.files host.old).log opened → length (⟦<NeverFails as Source>⟧.unread host.old) ≤ 2 ^ 30 → (result ≡ Status.Done) ⊎ (result ≡ Status.NoMemory) }
    ensures too_long { (database_of words.now ≡ None → ⊥) → (opened : Opened) → IsOpened sql_meaning (⟦<NeverFails as Host>⟧.files host.old).log opened → 2 ^ 30 < length (⟦<NeverFails as Source>⟧.unread host.old) → (result ≡ Status.InputTooLong) ⊎ (result ≡ Status.NoMemory) }
    ensures damaged { (database_of words.now ≡ None → ⊥) → (number : ℕ) → IsDamagedAt sql_meaning (⟦<NeverFails as Host>⟧.files host.old).log number → (result ≡ Status.Damaged (Damage.Log number)) ⊎ (result ≡ Status.NoMemory) }
    ensures invalid { (database_of words.now ≡ None → ⊥) → (name : List ℕ) → IsInvalid sql_meaning (⟦<NeverFails as Host>⟧.files host.old).log name → (result ≡ Status.Damaged (Damage.Invalid name)) ⊎ (result ≡ Status.NoMemory) }
{
    run(alloc, words, host)
}
