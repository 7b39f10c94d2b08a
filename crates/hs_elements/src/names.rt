// The names of constraints that have none of their own.
ghost use Rattle.std.specs.Prelude.{◌≡◌, ℕ, ◌≤◌, ◌<◌, ◌+◌, ◌++◌, ◌||◌, Bool, true, false, [], IfOk, OnOk, length, string_bytes};
ghost use Rattle.std.specs.Str.{bytes_eq};
ghost use Rattle.hs_elements.specs.Faults.{Text};
ghost use Rattle.hs_elements.specs.Names as spec;

use hs_base::NoMemory;
use hs_schema::Catalog;
use hs_values::Name;
use indexmap::IndexSet;
use std::alloc::Global;
use std::fmt::Write;

/// What a constraint asks.
#[derive(Clone, Copy, Debug, PartialEq, Eq)]
pub enum ConstraintKind {
    NotNull,
    PrimaryKey,
    Unique,
    Check,
    ForeignKey,
}

impl ConstraintKind {
    /// The word for it in names.
    fn word(self) -> &'static str
        ensures { result.now ≡ spec.word_of self }
    {
        match self {
            ConstraintKind::NotNull => "NULL",
            ConstraintKind::PrimaryKey => "PRIMARY",
            ConstraintKind::Unique => "UNIQUE",
            ConstraintKind::Check => "CHECK",
            ConstraintKind::ForeignKey => "FOREIGN",
        }
    }
}

fn ending(alloc: Global, kind: ConstraintKind, n: u64) -> Result<String, NoMemory>
    ensures { IfOk result (λ text. string_bytes text ≡ spec.ending kind n) }
{
    let mut text = String::new(alloc);
    text.push('_')?;
    text.push_str(kind.word())?;
    write!(text, "_{n}")?;
    Ok(text)
}

// Puts the longest front of whole characters with at most so many bytes behind a text.
fn push_front(room: usize, text: &str, out: &mut String) -> Result<(), NoMemory>
    ensures { OnOk result (string_bytes out.new ≡ string_bytes out.old ++ spec.cut room text.now) }
{
    let mut room = room;
    for c in text.chars() {
        let size = c.len_utf8();
        if room < size {
            return Ok(());
        }
        out.push(c)?;
        room -= size;
    }
    Ok(())
}

/// The longest name that a constraint has.
const MOST_BYTES: usize = 128;

/// `table_kind_n`: where that has more than 128 bytes, the table's name is cut.
fn numbered(alloc: Global, table: &str, kind: ConstraintKind, n: u64) -> Result<Name, NoMemory>
    ensures { IfOk result (λ name. name ≡ spec.numbered table.now kind n) }
{
    let ending = ending(alloc, kind, n)?;
    let mut text = String::new(alloc);
    push_front(MOST_BYTES.saturating_sub(ending.len()), table, &mut text)?;
    text.push_str(ending.as_str())?;
    Ok(Name::from_string(text))
}

/// Names that were given, for look-ups.
#[derive(Drop)]
pub struct NameSet {
    names: IndexSet<String>,
}

impl NameSet {
    /// None. Takes no memory.
    pub fn new(alloc: Global) -> NameSet
        ensures { (name : Text) → spec.is_held result name ≡ false }
    {
        NameSet {
            names: IndexSet::new(alloc),
        }
    }

    /// Whether a name is among them.
    pub fn has(&self, name: &str) -> bool
        ensures { result ≡ spec.is_held self.now name.now }
    {
        self.names.contains(name)
    }

    /// Adds a name. An `Err` is want of memory.
    pub fn add(&mut self, alloc: Global, name: &str) -> Result<(), NoMemory>
        ensures { OnOk result ((n : Text) → spec.is_held self.new n ≡ (spec.is_held self.old n || bytes_eq n name.now)) }
    {
        let key = String::from_str(alloc, name)?;
        self.names.insert(key)?;
        Ok(())
    }
}

/// Whether a name was given, or a constraint or an index of the catalogue has it.
pub fn is_taken(cat: &Catalog, given: &NameSet, name: &str) -> bool
    ensures { result ≡ spec.is_taken cat.now given.now name.now }
{
    if given.has(name) {
        return true;
    }
    cat.order_of(name).is_some()
}

/// The name of a constraint that has none: `table_kind_n`, n being the least number from 1 on whose name is free; with this
/// number. The numbers below `from` are known to be taken. An `Err` is want of memory.
pub fn free_name(
    alloc: Global,
    cat: &Catalog,
    given: &NameSet,
    table: &str,
    kind: ConstraintKind,
    from: u64,
) -> Result<(u64, Name), NoMemory>
    requires from { 1 ≤ from }
    requires tried { (n : ℕ) → 1 ≤ n → n < from → spec.is_taken cat.now given.now (spec.numbered table.now kind n) ≡ true }
    ensures number { IfOk result (λ found. spec.IsLeastFree (spec.is_taken cat.now given.now) table.now kind found.0) }
    ensures name { IfOk result (λ found. found.1 ≡ spec.numbered table.now kind found.0) }
{
    for n in from..u64::MAX {
        let name = numbered(alloc, table, kind, n)?;
        if !is_taken(cat, given, name.as_str()) {
            return Ok((n, name));
        }
    }
    Err(NoMemory)
}
