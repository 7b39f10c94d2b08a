// The numbers of host calls.
ghost use Rattle.std.specs.Prelude.{◌≡◌, ◌↔◌, IsTrue, Contains, [], IfOk};

use std::alloc::{AllocError, Global};
use std::marker::Model;

/// The numbers of calls of a host, counted from 0, which contracts see as their list.
#[derive(Debug, Drop)]
pub struct CallList {
    calls: Vec<u64>,
}

impl Model for CallList {
    ghost use Rattle.std.specs.Prelude.{List, ℕ};
    ghost use Rattle.std.specs.Coded.{coded_list, coded_ℕ};

    ghost Value = { List ℕ };

    ghost coded = { coded_list coded_ℕ };

    ghost view = { λ c. c.calls.items };
}

impl CallList {
    /// No call. Takes no memory.
    pub fn new(alloc: Global) -> CallList
        ensures { result ≡ [] }
    {
        CallList {
            calls: Vec::new(alloc),
        }
    }

    /// The calls of a vector, without taking memory.
    pub fn from_vec(calls: Vec<u64>) -> CallList
        ensures { result ≡ calls.items }
    {
        CallList { calls }
    }

    /// Whether the call with this number is in the list. Takes no memory.
    pub fn contains(&self, call: u64) -> bool
        ensures { IsTrue result ↔ Contains self.now call }
    {
        self.calls.contains(&call)
    }

    /// The same numbers once more. Its only `Err` comes where memory is refused.
    pub fn copy(&self) -> Result<CallList, AllocError>
        ensures { IfOk result (λ copied. copied ≡ self.now) }
    {
        Ok(CallList {
            calls: self.calls.clone()?,
        })
    }
}
