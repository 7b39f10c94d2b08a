// Savepoints of a transaction.
ghost use Rattle.std.specs.Prelude.{◌≡◌, ◌<◌, ◌+◌, [], position, take, vec_len, OnOk, OnErr};
ghost use Rattle.std.specs.List.{remove};
ghost use Rattle.hs_sessions.specs.Savepoints as spec;

use hs_base::NoMemory;
use hs_values::Name;
use std::alloc::Global;
use std::marker::Model;

/// A savepoint: its name, and how many changes stood when it was made.
#[derive(Drop)]
pub struct Savepoint {
    pub name: Name,
    pub changes: usize,
}

/// The savepoints of a transaction, the newest last. Contracts see the list.
#[derive(Drop)]
pub struct Savepoints {
    list: Vec<Savepoint>,
}

impl Model for Savepoints {
    ghost use Rattle.std.specs.Prelude.{List};
    ghost use Rattle.hs_sessions.specs.declared.savepoints.Savepoint.{Savepoint};

    ghost Value = { List Savepoint };

    ghost view = { λ l. l.list.items };
}

impl Savepoints {
    /// No savepoint. Takes no memory.
    pub fn new(alloc: Global) -> Savepoints
        ensures { result ≡ [] }
    {
        Savepoints {
            list: Vec::new(alloc),
        }
    }

    /// The place of the savepoint of this name: None exactly where there is none.
    pub fn place(&self, name: &Name) -> Option<usize>
        ensures { result ≡ position (spec.is_called name.now) self.now }
    {
        self.list.iter().position(|point| point.name == *name)
    }

    /// How many changes stood when the savepoint at a place was made.
    pub fn changes_at(&self, place: usize) -> usize
        ensures { result ≡ spec.changes_at place self.now }
    {
        match self.list.get(place) {
            Some(point) => point.changes,
            None => 0,
        }
    }

    /// Adds a savepoint, and forgets an older one of its name. After an `Err`, which is want of memory, nothing is
    /// changed.
    pub fn add(&mut self, name: Name, changes: usize) -> Result<(), NoMemory>
        ensures ok { OnOk result (self.new ≡ spec.with_savepoint name changes self.old) }
        ensures err { OnErr result (self.new ≡ self.old) }
    {
        let older = self.place(&name);
        self.list.push(Savepoint { name, changes })?;
        if let Some(place) = older {
            remove_at(&mut self.list, place);
        }
        Ok(())
    }

    /// Forgets those behind a place.
    pub fn keep(&mut self, place: usize)
        ensures { self.new ≡ take (place + 1) self.old }
    {
        if place < self.list.len() {
            self.list.truncate(place + 1);
        }
    }

    /// Forgets those from a place on.
    pub fn truncate(&mut self, place: usize)
        ensures { self.new ≡ take place self.old }
    {
        self.list.truncate(place);
    }
}

fn remove_at(list: &mut Vec<Savepoint>, place: usize)
    requires { place < vec_len list.old }
    ensures { list.new.items ≡ remove list.old.items place }
{
    let _gone = list.remove(place);
}
