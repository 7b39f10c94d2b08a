// What takes turns.

ghost use Rattle.std.specs.Prelude.{◌≡◌, ◌<◌, ℕ, true, false, [], IfOk, OnOk, OnErr};
ghost use Rattle.hs_run.specs.Future.{ClosesOn, Future, StepsOn, TakesOn};
ghost use Rattle.hs_run.specs.Items.{IsTaken};

use crate::gathered::Gathered;
use hs_entries::Item;
use std::alloc::AllocError;

/// What takes turns over the items of an input. What a turn tells and makes may come in several pieces, each of which tells
/// whole lines.
pub trait Turns {
    /// This is what it tells and makes from here on, over whatever items come.
    ghost has_ahead: { Self → Future → Type 0 };

    /// No piece is due before more of the input is needed.
    ghost rests: { Self → Type 0 };

    /// How many pieces may be due without more of the input, at most.
    ghost weight: { Self → ℕ };

    /// How many commits are made.
    fn commits(&self) -> u64
        ensures { (f : Future) → has_ahead self.now f → result ≡ f.commits };

    /// Gathers the next piece that needs no more of the input, and answers whether there was one. An `Err` is want of memory,
    /// and then nothing is gathered, and nothing is known of this.
    fn step(&mut self, gathered: &mut Gathered) -> Result<bool, AllocError>
        requires ahead { (f : Future) × has_ahead self.old f }
        ensures steps { (f : Future) → has_ahead self.old f → IfOk result (λ more. more ≡ true → StepsOn (has_ahead self.new) f gathered.old gathered.new) }
        ensures weight { IfOk result (λ more. more ≡ true → weight self.new < weight self.old) }
        ensures rests { IfOk result (λ more. more ≡ false → rests self.new × ((self.new ≡ self.old) × (gathered.new ≡ gathered.old))) }
        ensures err { OnErr result (gathered.new ≡ gathered.old) };

    /// Takes the next item of the input, which is not its end, and gathers the first piece that comes with it. An `Err` is
    /// want of memory, and then nothing is gathered, and nothing is known of this.
    fn take(&mut self, item: Item, gathered: &mut Gathered) -> Result<(), AllocError>
        requires ahead { (f : Future) × has_ahead self.old f }
        requires rests { rests self.old }
        requires item { IsTaken item }
        ensures takes { (f : Future) → has_ahead self.old f → OnOk result (TakesOn (has_ahead self.new) f item gathered.old gathered.new) }
        ensures err { OnErr result (gathered.new ≡ gathered.old) };

    /// Gathers the next piece that comes at the end of the input, and answers whether there was one. An `Err` is want of
    /// memory, and then nothing is gathered, and nothing is known of this.
    fn close(&mut self, gathered: &mut Gathered) -> Result<bool, AllocError>
        requires ahead { (f : Future) × has_ahead self.old f }
        requires rests { rests self.old }
        ensures closes { (f : Future) → has_ahead self.old f → IfOk result (λ more. more ≡ true → ClosesOn (has_ahead self.new) f gathered.old gathered.new) }
        ensures weight { IfOk result (λ more. more ≡ true → weight self.new < weight self.old) }
        ensures over { (f : Future) → has_ahead self.old f → IfOk result (λ more. more ≡ false → (f.closing [] ≡ []) × ((self.new ≡ self.old) × (gathered.new ≡ gathered.old))) }
        ensures err { OnErr result (gathered.new ≡ gathered.old) };

    /// Where none is due, none comes without an item.
    ghost resting: { (s : Self) (f : Future) → rests s → has_ahead s f → f.taken [] ≡ [] };
}
