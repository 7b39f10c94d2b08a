// Conditions on rows.
ghost use Rattle.std.specs.Prelude.{◌≡◌, ℕ, List, Option, None, Result};
ghost use Rattle.hs_values.specs.declared.fault.EvalFault.{EvalFault};
ghost use Rattle.hs_values.specs.declared.value.Value.{Value};
ghost use Rattle.hs_rel.specs.declared.stop.StopKind.{StopKind};
ghost use Rattle.hs_rel.specs.Outcome.{Answers, IsCaused, stop_of};

use crate::stop::EvalStop;
use hs_values::{Row, Value};

/// A condition on rows, or another expression over them. It may read a store meanwhile.
pub trait Judge {
    /// What each call asks of it, and leaves.
    ghost ready: { Self → Type 0 };

    /// Contracts may speak of what it gives.
    ghost tells: { Self → Type 0 };

    /// The value or the fault that a row has, which no call changes.
    ghost verdict: { Self → List Value → Result Value EvalFault };

    /// How many calls of the disk failed so far.
    ghost disk_faults: { Self → ℕ };

    /// The numbers of pages that are told to be no page.
    ghost is_no_page: { Self → ℕ → Type 0 };

    /// From the one to the other it was only asked, and where it stopped, by the last call.
    ghost asked: { Option StopKind → Self → Self → Type 0 };

    /// The value that a row has. An `Err` is the fault that it has, a stop of the store, or want of memory.
    fn judge(&mut self, row: &Row) -> Result<Value, EvalStop>
        requires { ready self.old }
        ensures verdict { tells self.old → Answers (verdict self.old row.now) result }
        ensures ready { ready self.new }
        ensures same { verdict self.new ≡ verdict self.old }
        ensures caused { IsCaused (stop_of result) (disk_faults self.old) (disk_faults self.new) (is_no_page self.new) }
        ensures asked { asked (stop_of result) self.old self.new };

    ghost not_asked: { (a : Self) → asked None a a };

    ghost asked_on: { (stop : Option StopKind) (a b c : Self) → asked None a b → asked stop b c → asked stop a c };

    ghost tells_on: { (a b : Self) → asked None a b → tells a → tells b };
}
