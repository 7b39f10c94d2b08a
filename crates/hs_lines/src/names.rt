// The names of the sessions.
ghost use Rattle.std.specs.Prelude.{◌≡◌, ◌<◌, ◌≤◌, ◌∷◌, ◌++◌, [], None, length, IfSome, OnOk, OnErr};
ghost use Rattle.std.specs.Option.{option_map};
ghost use Rattle.hs_sessions.specs.Book.{number_from};
ghost use Rattle.hs_lines.specs.Names.{IsKnown, name_in};

use hs_base::{NoMemory, SessionNo};
use hs_values::Name;
use indexmap::IndexSet;
use std::alloc::Global;
use std::marker::Model;

/// How many sessions a run has at most.
pub const MOST_SESSIONS: usize = 64;

/// The names of the sessions in the order of their numbers, which begin with 1. Contracts see the list.
#[derive(Drop)]
pub struct Names {
    names: IndexSet<String>,
}

impl Model for Names {
    ghost use Rattle.std.specs.Prelude.{◌≤◌, List, ℕ, map, length, string_bytes};
    ghost use Rattle.std.specs.Coded.{coded_list, coded_ℕ};

    ghost Value = { List (List ℕ) };

    ghost coded = { coded_list (coded_list coded_ℕ) };

    ghost view = { λ n. map string_bytes n.names.keys };

    ghost invariant = { λ n. length n.names.keys ≤ 64 };
}

impl Names {
    /// No session. Takes no memory.
    pub fn new(alloc: Global) -> Names
        ensures { result ≡ [] }
    {
        Names {
            names: IndexSet::new(alloc),
        }
    }

    /// How many sessions there are.
    pub fn len(&self) -> usize
        ensures number { result ≡ length self.now }
        ensures few { result ≤ 64 }
    {
        self.names.len()
    }

    /// The number of the session of a name: None exactly where there is no such session. Takes no memory.
    pub fn number(&self, name: &Name) -> Option<SessionNo>
        ensures number { option_map (λ n. n.0) result ≡ number_from 1 name.now self.now }
        ensures known { IfSome result (λ n. IsKnown self.now n.0) }
    {
        match self.names.get_index_of(name.as_str()) {
            Some(at) => Some(SessionNo(at as u32 + 1)),
            None => None,
        }
    }

    /// The name of a session, and no text where there is no such session. Takes no memory.
    pub fn name(&self, session: SessionNo) -> &str
        ensures { result.now ≡ name_in self.now session.0 }
    {
        match self.names.get_index((session.0 as usize).saturating_sub(1)) {
            Some(name) => name.as_str(),
            None => "",
        }
    }

    /// Adds a session of a new name. After an `Err`, which is want of memory, nothing is changed.
    pub fn add(&mut self, name: &Name) -> Result<(), NoMemory>
        requires new { number_from 1 name.now self.old ≡ None }
        requires few { length self.old < 64 }
        ensures ok { OnOk result (self.new ≡ self.old ++ name.now ∷ []) }
        ensures err { OnErr result (self.new ≡ self.old) }
    {
        let key = name.copy()?.into_string();
        if self.names.insert(key).is_err() {
            return Err(NoMemory);
        }
        Ok(())
    }
}
