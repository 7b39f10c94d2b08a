// Conditions of CHECK.
ghost use Rattle.std.specs.Prelude.{◌≡◌, ◌++◌, false, List, OnOk, IfOk};
ghost use Rattle.hs_plan.specs.declared.definition.Column.{Column};
ghost use Rattle.hs_plan.specs.declared.expression.Expr.{Expr};
ghost use Rattle.hs_valuetext.specs.Finding.{Knows};
ghost use Rattle.hs_valuetext.specs.Texts.{has_control};
ghost use Rattle.hs_tabletext.specs.Conditions.{Wording, IsConditionText};

use hs_base::NoMemory;
use hs_plan::{Column, Expr};
use hs_values::Chars;
use std::alloc::{AllocError, Global};

/// What writes and reads the conditions of CHECK over a table's columns.
pub trait Conditions {
    /// Which conditions have a text, and what it is.
    ghost wording: { Self → Wording };

    /// Adds the text of a condition over these columns, which has one. An `Err` is want of memory, and then a part of the
    /// text may be there.
    fn print(
        &self,
        alloc: Global,
        condition: &Expr,
        columns: &[Column],
        out: &mut Chars,
    ) -> Result<(), NoMemory>
        requires { (wording self.now).Has columns.now condition.now }
        ensures { OnOk result (out.new ≡ out.old ++ (wording self.now).text columns.now condition.now) };

    /// The condition over these columns whose text is all of the text. None exactly where there is none. There is never more
    /// than one. An `Err` is want of memory.
    fn read(
        &self,
        alloc: Global,
        text: &str,
        columns: &[Column],
    ) -> Result<Option<Expr>, AllocError>
        ensures { IfOk result (λ found. Knows (λ e. e) (IsConditionText (wording self.now) columns.now text.now) found) };

    /// No text has a control character.
    ghost clean: { (conditions : Self) (columns : List Column) (e : Expr) → (wording conditions).Has columns e → has_control ((wording conditions).text columns e) ≡ false };
}
