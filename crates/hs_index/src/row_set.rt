// The rows of one key: numbers that ascend.
ghost use Rattle.std.specs.Prelude.{◌≡◌, ◌≤◌, ◌<◌, ◌∷◌, [], ◌↔◌, IsTrue, length, vec_len, vec_capacity, IfOk, OnOk, OnErr};
ghost use Rattle.std.specs.List.{insert, remove};
ghost use Rattle.hs_index.specs.RowSets.{IsAscending, with_row, without_row};

use hs_base::{NoMemory, RowNo};
use std::alloc::Global;
use std::marker::Model;
use std::slice::from_ref;

#[derive(Drop)]
pub(crate) enum Held {
    One(RowNo),
    Listed(Vec<RowNo>),
}

/// Numbers of rows. One alone, as each key of a primary key has, takes no memory of its own. Contracts see the list.
#[derive(Drop)]
pub(crate) struct RowSet {
    held: Held,
}

impl Model for RowSet {
    ghost use Rattle.std.specs.Prelude.{List};
    ghost use Rattle.hs_base.specs.declared.numbers.RowNo.{RowNo};

    ghost Value = { List RowNo };

    ghost use Rattle.hs_index.specs.Held.{rows_of};

    ghost view = { λ s. rows_of s.held };
}

impl RowSet {
    /// This row alone.
    pub(crate) fn of(row: RowNo) -> RowSet
        ensures { result ≡ row ∷ [] }
    {
        RowSet {
            held: Held::One(row),
        }
    }

    pub(crate) fn as_slice(&self) -> &[RowNo]
        ensures { result.now ≡ self.now }
    {
        match &self.held {
            Held::One(row) => from_ref(row),
            Held::Listed(rows) => rows,
        }
    }

    pub(crate) fn is_empty(&self) -> bool
        ensures { IsTrue result ↔ (self.now ≡ []) }
    {
        self.as_slice().is_empty()
    }

    /// Puts a row among the others, where it isn't there yet.
    pub(crate) fn put(&mut self, alloc: Global, row: RowNo) -> Result<(), NoMemory>
        requires { IsAscending self.old }
        ensures ok { OnOk result (self.new ≡ with_row row self.old) }
        ensures err { OnErr result (self.new ≡ self.old) }
    {
        match self.as_slice().binary_search(&row) {
            Ok(_) => Ok(()),
            Err(at) => self.insert_at(alloc, at, row),
        }
    }

    /// Takes a row out from among the others, where it is there.
    pub(crate) fn take(&mut self, alloc: Global, row: RowNo)
        requires { IsAscending self.old }
        ensures { self.new ≡ without_row row self.old }
    {
        match self.as_slice().binary_search(&row) {
            Ok(at) => self.remove_at(alloc, at),
            Err(_) => {}
        }
    }

    /// Puts a row in the place of another, or among the others where that one isn't there.
    pub(crate) fn exchange(&mut self, alloc: Global, from: RowNo, to: RowNo) -> Result<(), NoMemory>
        requires { IsAscending self.old }
        ensures ok { OnOk result (self.new ≡ with_row to (without_row from self.old)) }
        ensures err { OnErr result (self.new ≡ self.old) }
    {
        match self.as_slice().binary_search(&from) {
            Ok(at) => {
                self.exchange_at(at, to);
                Ok(())
            }
            Err(_) => self.put(alloc, to),
        }
    }

    // Puts a number at a place. A greater one than all goes to the end, which moves nothing.
    fn insert_at(&mut self, alloc: Global, at: usize, row: RowNo) -> Result<(), NoMemory>
        requires { at ≤ length self.old }
        ensures ok { OnOk result (self.new ≡ insert self.old at row) }
        ensures err { OnErr result (self.new ≡ self.old) }
    {
        match &mut self.held {
            Held::One(only) => {
                let both = two(alloc, *only, at, row)?;
                self.held = Held::Listed(both);
                Ok(())
            }
            Held::Listed(rows) => {
                rows.insert(at, row)?;
                Ok(())
            }
        }
    }

    fn remove_at(&mut self, alloc: Global, at: usize)
        requires { at < length self.old }
        ensures { self.new ≡ remove self.old at }
    {
        match &mut self.held {
            Held::One(_) => self.held = Held::Listed(Vec::new(alloc)),
            Held::Listed(rows) => {
                let _gone = rows.remove(at);
            }
        }
    }

    // Puts a row among the others but for that at a place.
    fn exchange_at(&mut self, at: usize, row: RowNo)
        requires within { at < length self.old }
        requires ascending { IsAscending (remove self.old at) }
        ensures { self.new ≡ with_row row (remove self.old at) }
    {
        match &mut self.held {
            Held::One(only) => *only = row,
            Held::Listed(rows) => exchange_in(rows, at, row),
        }
    }
}

// A row and another one, which is put at this place.
fn two(alloc: Global, only: RowNo, at: usize, row: RowNo) -> Result<Vec<RowNo>, NoMemory>
    requires { at ≤ 1 }
    ensures { IfOk result (λ both. both.items ≡ insert (only ∷ []) at row) }
{
    let mut both = Vec::with_capacity(alloc, 2)?;
    both.push(only)?;
    both.insert(at, row)?;
    Ok(both)
}

// The number at this place leaves room for the other.
fn exchange_in(rows: &mut Vec<RowNo>, at: usize, row: RowNo)
    requires within { at < length rows.old.items }
    requires ascending { IsAscending (remove rows.old.items at) }
    ensures { rows.new.items ≡ with_row row (remove rows.old.items at) }
{
    let _gone = rows.remove(at);
    match rows.as_slice().binary_search(&row) {
        Ok(_) => {}
        Err(gap) => insert_there(rows, gap, row),
    }
}

fn insert_there(rows: &mut Vec<RowNo>, at: usize, row: RowNo)
    requires within { at ≤ vec_len rows.old }
    requires room { vec_len rows.old < vec_capacity rows.old }
    ensures { rows.new.items ≡ insert rows.old.items at row }
{
    match rows.insert(at, row) {
        Ok(()) => {}
        Err(_) => unreachable!(),
    }
}
