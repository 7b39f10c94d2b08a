// Which conditions a log can have.
use crate::checks::Checks;
use crate::reading::is_read_again;
use hs_base::NoMemory;
use hs_binding::Binder;
use hs_plan::{Column, Expr};
use hs_wording::CheckTexts;
use std::alloc::Global;

impl<B: Binder> CheckTexts for Checks<B> {
    fn has_text(
        &self,
        alloc: Global,
        condition: &Expr,
        columns: &[Column],
    ) -> Result<bool, NoMemory> {
        is_read_again(alloc, &self.binder, condition, columns)
    }

    ghost plain = { λ c columns e has. has.plain };
}
