// Who says what payloads mean.
ghost use Rattle.std.specs.Prelude.{◌≡◌, true, IfOk, OnOk};
ghost use Rattle.hs_damages.specs.Meaning.{Meaning, Taken, and_one};

use crate::part::Part;
use std::alloc::AllocError;

/// Who takes the payloads of a database one after another, and says whether each may stand where it does.
pub trait Judge {
    /// What payloads mean.
    ghost meaning: { Meaning };

    /// The payloads that were taken.
    ghost taken: { Self → Taken };

    /// Takes the next payload of a part, and answers whether it may come next.
    ///
    /// An `Err` is want of memory. Nothing is said of this then, nor behind a payload that may not.
    fn take(&mut self, part: Part, payload: &[u8]) -> Result<bool, AllocError>
        ensures allowed { IfOk result (λ may. may ≡ meaning.allows (taken self.old) part payload.now) }
        ensures taken { IfOk result (λ may. may ≡ true → taken self.new ≡ and_one (taken self.old) part payload.now) };

    /// Whether a part may end behind what was taken.
    ///
    /// An `Err` is want of memory. Nothing is said of this then.
    fn end(&mut self, part: Part) -> Result<bool, AllocError>
        ensures ends { IfOk result (λ may. may ≡ meaning.ends (taken self.old) part) }
        ensures same { OnOk result (taken self.new ≡ taken self.old) };
}
