// The foreign keys by the tables that they reference.
ghost use Rattle.std.specs.Prelude.{◌≡◌, true, List, [], ◌∷◌, ◌++◌, if◌then◌else◌, IfOk, OnOk, OnErr, filter, not};
ghost use Rattle.std.specs.Str.{bytes_eq};
ghost use Rattle.hs_schema.specs.declared.table.Child.{Child};
ghost use Rattle.hs_schema.specs.Catalogue.{Text, Things, children_in, children_of};
ghost use Rattle.hs_schema.specs.Kept.{children_at, is_child, is_of_table};

use crate::table::Child;
use crate::thing::{Part, Thing};
use hs_base::{NoMemory, TableNo};
use hs_plan::Rule;
use indexmap::IndexMap;
use std::alloc::Global;

/// For the name of a table the foreign keys that reference it, in the order of creation.
#[derive(Drop)]
pub(crate) struct Children {
    lists: IndexMap<String, Vec<Child>>,
}

impl Children {
    pub(crate) fn new(alloc: Global) -> Children
        ensures { result.lists.entries ≡ [] }
    {
        Children {
            lists: IndexMap::new(alloc),
        }
    }

    pub(crate) fn of(&self, parent: &str) -> &[Child]
        ensures { result.now ≡ children_at self.now.lists.entries parent.now }
    {
        match self.lists.get(parent) {
            Some(list) => list,
            None => &[],
        }
    }

    /// A copy, which has the same lists.
    pub(crate) fn copy(&self) -> Result<Children, NoMemory>
        ensures { IfOk result (λ copied. (name : Text) → children_at copied.lists.entries name ≡ children_at self.now.lists.entries name) }
    {
        Ok(Children {
            lists: self.lists.clone()?,
        })
    }

    // Puts one behind those of this parent.
    fn add(&mut self, parent: &str, child: Child) -> Result<(), NoMemory>
        ensures ok { OnOk result ((name : Text) → children_at self.new.lists.entries name ≡ children_at self.old.lists.entries name ++ (if bytes_eq parent.now name then child ∷ [] else [])) }
        ensures err { OnErr result ((name : Text) → children_at self.new.lists.entries name ≡ children_at self.old.lists.entries name) }
    {
        if let Some(list) = self.lists.get_mut(parent) {
            list.push(child)?;
            return Ok(());
        }
        let alloc = *self.lists.allocator();
        let mut list = Vec::new(alloc);
        list.push(child)?;
        let key = String::from_str(alloc, parent)?;
        self.lists.insert(key, list)?;
        Ok(())
    }

    // Puts a foreign key behind those of its parent.
    fn add_thing(&mut self, thing: &Thing) -> Result<(), NoMemory>
        ensures ok { OnOk result ((name : Text) → children_at self.new.lists.entries name ≡ children_at self.old.lists.entries name ++ children_in name thing.now.table thing.now.part) }
        ensures err { OnErr result ((name : Text) → children_at self.new.lists.entries name ≡ children_at self.old.lists.entries name) }
    {
        let Part::Constraint(constraint) = &thing.part else {
            return Ok(());
        };
        let Rule::ForeignKey(key) = &constraint.rule else {
            return Ok(());
        };
        let child = Child {
            table: thing.table,
            constraint: constraint.name.copy()?,
            on_delete: key.on_delete,
            on_update: key.on_update,
        };
        self.add(key.parent.as_str(), child)
    }

    // Takes back a foreign key that was added last.
    fn take_back(&mut self, thing: &Thing)
        ensures { (before : Text → List Child) → ((name : Text) → children_at self.old.lists.entries name ≡ before name ++ children_in name thing.now.table thing.now.part) → (name : Text) → children_at self.new.lists.entries name ≡ before name }
    {
        let Part::Constraint(constraint) = &thing.part else {
            return;
        };
        let Rule::ForeignKey(key) = &constraint.rule else {
            return;
        };
        if let Some(list) = self.lists.get_mut(key.parent.as_str()) {
            take_last(list);
        }
    }

    /// Puts foreign keys behind those of their parents. After an `Err`, which is want of memory, each list is as before.
    pub(crate) fn add_all(&mut self, more: &[Thing]) -> Result<(), NoMemory>
        ensures ok { OnOk result ((name : Text) → children_at self.new.lists.entries name ≡ children_at self.old.lists.entries name ++ children_of more.now name) }
        ensures err { OnErr result ((name : Text) → children_at self.new.lists.entries name ≡ children_at self.old.lists.entries name) }
    {
        let [first, rest @ ..] = more else {
            return Ok(());
        };
        self.add_thing(first)?;
        match self.add_all(rest) {
            Ok(()) => Ok(()),
            Err(e) => {
                self.take_back(first);
                Err(e)
            }
        }
    }

    /// Takes out those of a table.
    pub(crate) fn forget_table(&mut self, table: TableNo)
        ensures { (name : Text) → children_at self.new.lists.entries name ≡ filter (λ k. not (is_of_table table k)) (children_at self.old.lists.entries name) }
    {
        self.lists.retain(|_parent: &String, list: &mut Vec<Child>| keep_others(list, table));
    }

    /// Takes out the one of a table that has this name.
    pub(crate) fn forget_constraint(&mut self, table: TableNo, constraint: &str)
        ensures { (name : Text) → children_at self.new.lists.entries name ≡ filter (λ k. not (is_child table constraint.now k)) (children_at self.old.lists.entries name) }
    {
        self.lists.retain(|_parent: &String, list: &mut Vec<Child>| keep_but_one(
            list, table, constraint,
        ));
    }
}

fn take_last(list: &mut Vec<Child>)
    ensures { (front : List Child) (last : Child) → list.old.items ≡ front ++ last ∷ [] → list.new.items ≡ front }
{
    let _last = list.pop();
}

// Takes those of a table out of a list, and keeps the list.
fn keep_others(list: &mut Vec<Child>, table: TableNo) -> bool
    ensures kept { result ≡ true }
    ensures rest { list.new.items ≡ filter (λ k. not (is_of_table table k)) list.old.items }
{
    list.retain(|child| child.table != table);
    true
}

// Takes the one of a table that has this name out of a list, and keeps the list.
fn keep_but_one(list: &mut Vec<Child>, table: TableNo, constraint: &str) -> bool
    ensures kept { result ≡ true }
    ensures rest { list.new.items ≡ filter (λ k. not (is_child table constraint.now k)) list.old.items }
{
    list.retain(|child| !child.is(table, constraint));
    true
}
