// The conditions of CHECK as a log has them.
use crate::reading::read_condition;
use hs_base::NoMemory;
use hs_binding::Binder;
use hs_conditiontext::print_condition;
use hs_plan::{Column, Expr};
use hs_tabletext::Conditions;
use hs_values::Chars;
use std::alloc::{AllocError, Global};

/// Writes and reads the conditions of CHECK, which are bound by this binder.
#[derive(Clone, Copy)]
pub struct Checks<B> {
    pub binder: B,
}

impl<B: Binder> Conditions for Checks<B> {
    ghost use Rattle.hs_conditions.specs.Texts.{checks};

    ghost wording = { λ c. checks };

    fn print(
        &self,
        alloc: Global,
        condition: &Expr,
        columns: &[Column],
        out: &mut Chars,
    ) -> Result<(), NoMemory> {
        print_condition(alloc, condition, columns, out)
    }

    fn read(
        &self,
        alloc: Global,
        text: &str,
        columns: &[Column],
    ) -> Result<Option<Expr>, AllocError> {
        match read_condition(alloc, &self.binder, text, columns) {
            Ok(found) => Ok(found),
            Err(NoMemory) => Err(AllocError),
        }
    }

    ghost clean = { λ c columns e has. has.stands.clean };
}
