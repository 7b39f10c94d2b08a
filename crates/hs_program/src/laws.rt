// What is true of each damaged log.
ghost use Rattle.std.specs.Prelude.{◌≡◌, ◌+◌, ℕ, List, true};
ghost use Rattle.hs_log.specs.Log.{is_born, is_broken, texts_of};
ghost use Rattle.hs_program.specs.Damaged.{IsDamagedAt, IsFirstDamage};
ghost use Rattle.hs_program.specs.Opening.{HasFirstEpoch};

use crate::engine::Engine;

/// The number of a damage is that of the first damaged group, counted from 1: the groups before it are made again one after another, and
/// it makes nothing of what they made, or is broken. It is 0 exactly where a born log isn't open with epoch 1.
pub fn damage_is_that_of_the_first_group<E: Engine>()
    ensures group { (log : List ℕ) (before : ℕ) → IsDamagedAt E.meaning log (before + 1) → IsFirstDamage E.meaning (texts_of log) (is_broken log) (before + 1) }
    ensures header { (log : List ℕ) → IsDamagedAt E.meaning log 0 → (is_born log ≡ true) × ¬ (HasFirstEpoch log) }
    ensures no_header { (log : List ℕ) → is_born log ≡ true → ¬ (HasFirstEpoch log) → IsDamagedAt E.meaning log 0 }
{}
