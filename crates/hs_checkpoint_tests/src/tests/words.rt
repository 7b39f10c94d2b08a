// A judge of payloads that are words.
ghost use Rattle.std.specs.Prelude.{◌≡◌, ◌==◌, [], not, nat_lt, length, map, slice_index};

use hs_damages::{Judge, Part};
use std::alloc::{AllocError, Global};

/// The words that were taken of each part. A word may not begin with `b`, and a checkpoint has at least one.
#[derive(Drop)]
pub struct Words {
    alloc: Global,
    pub base: Vec<Vec<u8>>,
    pub images: Vec<Vec<u8>>,
    pub logged: Vec<Vec<u8>>,
}

impl Words {
    /// No words.
    pub fn new(alloc: Global) -> Words
        ensures { (result.base.items ≡ []) × (result.images.items ≡ []) × (result.logged.items ≡ []) }
    {
        Words {
            alloc,
            base: Vec::new(alloc),
            images: Vec::new(alloc),
            logged: Vec::new(alloc),
        }
    }
}

impl Judge for Words {
    ghost meaning = { record { allows = λ taken part payload. not (slice_index payload 0 == 98); ends = λ taken part. nat_lt 0 (length taken.base) } };

    ghost taken = { λ w. record { base = map (λ v. v.items) w.base.items; images = map (λ v. v.items) w.images.items; logged = map (λ v. v.items) w.logged.items } };

    fn take(&mut self, part: Part, payload: &[u8]) -> Result<bool, AllocError> {
        if payload.first() == Some(&98) {
            return Ok(false);
        }
        let word = payload.to_vec(self.alloc)?;
        match part {
            Part::Checkpoint => self.base.push(word)?,
            Part::Images => self.images.push(word)?,
            Part::Commits => self.logged.push(word)?,
        }
        Ok(true)
    }

    fn end(&mut self, _part: Part) -> Result<bool, AllocError> {
        Ok(!self.base.is_empty())
    }
}
