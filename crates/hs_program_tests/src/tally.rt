// A database that counts its commits.
ghost use Rattle.std.specs.Prelude.{◌≡◌, ◌&&◌};
ghost use Rattle.hs_program_tests.specs.Tally.{is_short};

use hs_program::Engine;
use hs_run_tests::Silent;
use hs_values::Name;
use std::alloc::{AllocError, Global};

/// How many bytes a text has at most.
const MOST_BYTES: usize = 65_536;

/// A database that counts its commits. Each text is one, and each entry makes one of its text. Its constraint `SHORT` is violated where a
/// text has more than 65,536 bytes, which an entry never has.
#[derive(Drop)]
pub struct Tally {
    pub made: u64,
    /// No text was too long.
    pub short: bool,
    alloc: Global,
}

// Whether a text is short, where those before it were or not.
fn still_short(text: &[u8], short: bool) -> bool
    ensures { result ≡ (is_short text.now && short) }
{
    text.len() <= MOST_BYTES && short
}

impl Engine for Tally {
    ghost use Rattle.std.specs.Prelude.{◌≡◌, ◌==◌, None};
    ghost use Rattle.hs_program_tests.specs.Tally.{tallied};
    ghost use Rattle.hs_program_tests.specs.Lawful.{is_lawful};

    type Work = Silent;

    ghost meaning = { tallied };

    ghost stands_for = { λ s opened. (opened.commits ≡ s.made) × (opened.last ≡ None) × ((opened.database.count == 0) ≡ s.short) };

    fn new(alloc: Global) -> Self {
        Tally {
            made: 0,
            short: true,
            alloc,
        }
    }

    fn last(&self) -> Option<u32> {
        None
    }

    fn redo(&mut self, text: &[u8]) -> Result<bool, AllocError> {
        self.made += 1;
        self.short = still_short(text, self.short);
        Ok(true)
    }

    fn judge(&self) -> Result<Option<Name>, AllocError> {
        if self.short {
            return Ok(None);
        }
        Ok(Some(Name::from_text(self.alloc, "SHORT")?))
    }

    fn turns(self, _size: u64) -> Silent {
        Silent { made: self.made }
    }

    ghost lawful = { is_lawful };
}
