// Questions to rows.
ghost use Rattle.std.specs.Prelude.{◌≡◌, ℕ, Bool, not, ◌==◌, ◌&&◌, List, Some, IfOk};
ghost use Rattle.hs_index.specs.Table as table;
ghost use Rattle.hs_values.specs.declared.value.Value.{Value};

use hs_base::{NoMemory, RowNo};
use hs_index::{has_null, key_in};
use hs_values::{Row, Value};
use std::alloc::Global;

/// A question to a row of a table. An `Err` is want of memory.
pub trait RowTest {
    /// What it answers, given the row's number and its values.
    ghost test: { Self → ℕ → List Value → Bool };

    /// Asks it of a row.
    fn passes(&self, alloc: Global, number: RowNo, row: &[Value]) -> Result<bool, NoMemory>
        ensures { IfOk result (λ is. is ≡ test self.now number.0 row.now) };
}

/// Whether a row has this key in these columns. A key with a NULL is no key.
pub fn has_key(alloc: Global, columns: &[u32], key: &Row, row: &[Value]) -> Result<bool, NoMemory>
    ensures { IfOk result (λ is. is ≡ table.has_key columns.now key.now (Some row.now)) }
{
    if has_null(key.as_slice()) {
        return Ok(false);
    }
    let own = key_in(alloc, columns, row)?;
    Ok(*key == own)
}

/// Whether a row has this key in these columns.
#[derive(Drop)]
pub struct Carries<'a> {
    pub columns: &'a [u32],
    pub key: &'a Row,
}

impl RowTest for Carries<'_> {
    ghost use Rattle.hs_sentences.specs.Sentences.{carries};

    ghost test = { λ s. carries s.columns.now s.key.now };

    fn passes(&self, alloc: Global, _number: RowNo, row: &[Value]) -> Result<bool, NoMemory> {
        has_key(alloc, self.columns, self.key, row)
    }
}

/// Whether a row has this key in these columns and isn't that of this number.
#[derive(Drop)]
pub struct CarriesToo<'a> {
    pub columns: &'a [u32],
    pub key: &'a Row,
    pub number: RowNo,
}

impl RowTest for CarriesToo<'_> {
    ghost use Rattle.hs_keyed.specs.Found.{carries_too};

    ghost test = { λ s. carries_too s.columns.now s.key.now s.number.0 };

    fn passes(&self, alloc: Global, number: RowNo, row: &[Value]) -> Result<bool, NoMemory> {
        if number == self.number {
            return Ok(false);
        }
        has_key(alloc, self.columns, self.key, row)
    }
}
