// The stacks of a tree's building.
ghost use Rattle.std.specs.Prelude.{◌≡◌, ◌∷◌, [], MatchResult};
ghost use Rattle.hs_builder.specs.declared.build_fault.BuildFault.TheVariants.{NoMemory};

use crate::build_fault::BuildFault;
use std::alloc::Global;
use std::marker::Model;

/// Parts of one kind that wait to be built into greater ones. Contracts see their list from the topmost down.
#[derive(Drop)]
pub struct Stack<T> {
    parts: Vec<T>,
}

impl<T> Model for Stack<T> {
    ghost use Rattle.std.specs.Prelude.{List, reverse};
    ghost use Rattle.std.specs.Coded.{coded_list};

    ghost Value = { List T };

    ghost coded = { coded_list T.code };

    ghost view = { λ s. reverse s.parts.items };
}

impl<T: Drop> Stack<T> {
    pub fn new(alloc: Global) -> Stack<T>
        ensures { result ≡ [] }
    {
        Stack {
            parts: Vec::new(alloc),
        }
    }

    pub fn push(&mut self, part: T) -> Result<(), BuildFault>
        ensures { MatchResult result (λ _. self.new ≡ part ∷ self.old) (λ e. e ≡ NoMemory) }
    {
        match self.parts.push(part) {
            Ok(()) => Ok(()),
            Err(_) => Err(BuildFault::NoMemory),
        }
    }

    /// The topmost part. Where there is none, what called for it is no derivation's, and the answer is that of want
    /// of memory.
    pub fn pop(&mut self) -> Result<T, BuildFault>
        ensures { MatchResult result (λ part. self.old ≡ part ∷ self.new) (λ e. (e ≡ NoMemory) × (self.old ≡ [])) }
    {
        match self.parts.pop() {
            Some(part) => Ok(part),
            None => Err(BuildFault::NoMemory),
        }
    }
}
