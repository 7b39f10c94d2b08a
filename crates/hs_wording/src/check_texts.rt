// Conditions that a log can have.
ghost use Rattle.std.specs.Prelude.{IfOk};
ghost use Rattle.hs_logged.specs.Entered.{Decides};
ghost use Rattle.hs_logged.specs.Writable.{IsPlainWording};

use hs_base::NoMemory;
use hs_plan::{Column, Expr};
use hs_tabletext::Conditions;
use std::alloc::Global;

/// What writes and reads conditions of CHECK that a log can have.
pub trait CheckTexts: Conditions {
    /// Whether a condition over these columns has a text. An `Err` is want of memory.
    fn has_text(
        &self,
        alloc: Global,
        condition: &Expr,
        columns: &[Column],
    ) -> Result<bool, NoMemory>
        ensures { IfOk result (Decides ((Self.wording self.now).Has columns.now condition.now)) };

    /// No condition that has a text has a query or an aggregate.
    ghost plain: { (conditions : Self) → IsPlainWording (Self.wording conditions) };
}
