// Groups that are given piece by piece.
ghost use Rattle.std.specs.Prelude.{◌≡◌, ℕ, List, [], ◌∷◌, ◌++◌, MatchBool, IfOk, OnOk};

use std::alloc::AllocError;

/// What a slot is to have: groups, which are given one after the other, and each of them in pieces.
pub trait Stand {
    /// The payloads of the groups that are still to be given, without the one at hand.
    ghost groups: { Self → List (List ℕ) };

    /// What is left of the payload at hand.
    ghost rest: { Self → List ℕ };

    /// Takes the next payload to hand, whatever is left of the one before, and answers whether there was one.
    ///
    /// An `Err` is want of memory. Nothing is said of this then.
    fn next_group(&mut self) -> Result<bool, AllocError>
        ensures { IfOk result (λ more. MatchBool more (groups self.old ≡ rest self.new ∷ groups self.new) (groups self.old ≡ [])) };

    /// Puts the next bytes of the payload at hand in place of what `piece` had. They are none only where none is left.
    ///
    /// An `Err` is want of memory. Nothing is said of this then.
    fn next_piece(&mut self, piece: &mut Vec<u8>) -> Result<(), AllocError>
        ensures gives { OnOk result (rest self.old ≡ piece.new.items ++ rest self.new) }
        ensures last { OnOk result (piece.new.items ≡ [] → rest self.old ≡ []) }
        ensures others { OnOk result (groups self.new ≡ groups self.old) };
}
