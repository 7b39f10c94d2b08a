// A value as evaluation gives it.
ghost use Rattle.std.specs.Prelude.{◌≡◌, IfOk};
ghost use Rattle.hs_values.specs.Order.{seen};
ghost use Rattle.hs_valued.specs.Evaluated.{shown};

use hs_values::{Value, ValueRef};
use std::alloc::{AllocError, Global};

/// A value as evaluation gives it: lent where it lies in a row or in the expression, or made.
#[derive(Drop)]
pub enum Evaluated<'a> {
    /// The value of a column or of a literal.
    Lent(ValueRef<'a>),
    /// Any other value.
    Made(Value),
}

impl Evaluated<'_> {
    /// The same value, its text lent from this one.
    pub fn as_value_ref(&self) -> ValueRef<'_>
        ensures { seen result ≡ shown self.now }
    {
        match self {
            Evaluated::Lent(value) => *value,
            Evaluated::Made(value) => value.as_value_ref(),
        }
    }

    /// The same value, of which a lent text is copied, and nothing else takes memory. An `Err` is want of it.
    pub fn into_value(self, alloc: Global) -> Result<Value, AllocError>
        ensures { IfOk result (λ value. value ≡ shown self.entry) }
    {
        match self {
            Evaluated::Lent(value) => value.to_value(alloc),
            Evaluated::Made(value) => Ok(value),
        }
    }
}
