// A machine that tells nothing.
ghost use Rattle.std.specs.Prelude.{ℕ, List};
ghost use Rattle.hs_entries.specs.declared.item.Item.{Item as TheItem};
ghost use Rattle.hs_run.specs.Pieces.{AreTrue};
ghost use Rattle.hs_run_tests.specs.Silent.{pieces_of};

use hs_entries::Item;
use hs_run::{Gathered, Turns};
use std::alloc::AllocError;

/// A machine that makes a commit of each entry, with the entry's text, and tells nothing.
#[derive(Drop)]
pub struct Silent {
    pub made: u64,
}

impl Turns for Silent {
    ghost use Rattle.std.specs.Prelude.{⊤, []};
    ghost use Rattle.hs_run_tests.specs.Silent.{IsSilent};

    ghost has_ahead = { λ s f. IsSilent s.made f };

    ghost rests = { λ s. ⊤ };

    ghost weight = { λ s. 0 };

    fn commits(&self) -> u64 {
        self.made
    }

    fn step(&mut self, _gathered: &mut Gathered) -> Result<bool, AllocError> {
        Ok(false)
    }

    // There is no room for more commits than a number of 64 bits counts.
    fn take(&mut self, item: Item, gathered: &mut Gathered) -> Result<(), AllocError> {
        let Item::Entry { text, .. } = item else {
            return Ok(());
        };
        if self.made == u64::MAX {
            return Err(AllocError);
        }
        gathered.made.push(text.as_str().as_bytes())?;
        self.made += 1;
        Ok(())
    }

    fn close(&mut self, _gathered: &mut Gathered) -> Result<bool, AllocError> {
        Ok(false)
    }

    ghost resting = { λ s f rests ahead. ahead.taken [] };
}

/// What this machine tells is true, over any items and after any number of commits.
#[tactic(auto, using(crate::proofs::Truth::silent))]
pub fn silent_pieces_are_true()
    ensures { (made : ℕ) (items : List TheItem) → AreTrue made (pieces_of items) }
{}
