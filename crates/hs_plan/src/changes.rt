// The changes of a commit or of an open transaction.
ghost use Rattle.std.specs.Prelude.{◌≡◌, ◌∷◌, ◌++◌, [], ◌↔◌, IsTrue, length, IfOk, OnOk, OnErr};

use crate::change::Change;
use hs_base::NoMemory;
use std::alloc::Global;
use std::marker::Model;

/// The changes of a commit or of an open transaction, in order. Contracts see the list.
#[derive(Drop)]
pub struct Changes {
    changes: Vec<Change>,
}

impl Model for Changes {
    ghost use Rattle.std.specs.Prelude.{List};
    ghost use Rattle.std.specs.Coded.{codes};
    ghost use Rattle.hs_plan.specs.declared.change.Change.{Change};
    ghost use Rattle.hs_plan.specs.contracts.expression.Expr as expression;

    ghost Value = { List Change };

    ghost coded = { Prim.hlevel (codes, expression.the_row.coded) };

    ghost view = { λ l. l.changes.items };
}

impl Changes {
    /// The empty list. Takes no memory.
    pub fn new(alloc: Global) -> Changes
        ensures { result ≡ [] }
    {
        Changes {
            changes: Vec::new(alloc),
        }
    }

    /// The list of a vector, without taking memory.
    pub fn from_vec(changes: Vec<Change>) -> Changes
        ensures { result ≡ changes.items }
    {
        Changes { changes }
    }

    /// The vector of this list, without taking memory.
    pub fn into_vec(self) -> Vec<Change>
        ensures { result.items ≡ self }
    {
        self.changes
    }

    pub fn as_slice(&self) -> &[Change]
        ensures { result.now ≡ self.now }
    {
        &self.changes
    }

    pub fn len(&self) -> usize
        ensures { result ≡ length self.now }
    {
        self.changes.len()
    }

    pub fn is_empty(&self) -> bool
        ensures { IsTrue result ↔ (self.now ≡ []) }
    {
        self.changes.is_empty()
    }

    /// Adds one at the end. After an `Err`, which is want of memory, nothing is changed.
    pub fn push(&mut self, change: Change) -> Result<(), NoMemory>
        ensures ok { OnOk result (self.new ≡ self.old ++ change ∷ []) }
        ensures err { OnErr result (self.new ≡ self.old) }
    {
        self.changes.push(change)?;
        Ok(())
    }

    /// The same list in memory of its own. An `Err` is want of memory, and what was copied by then is given back.
    pub fn copy(&self) -> Result<Changes, NoMemory>
        ensures { IfOk result (λ copied. copied ≡ self.now) }
    {
        let alloc = *self.changes.allocator();
        let mut changes = Vec::with_capacity(alloc, self.changes.len())?;
        for change in &self.changes {
            changes.push(change.copy(alloc)?)?;
        }
        Ok(Changes { changes })
    }
}
