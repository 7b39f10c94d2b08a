// What constraints ask of a row.
ghost use Rattle.std.specs.Prelude.{◌≡◌};

use crate::check::Check;
use hs_base::{NoMemory, RowNo};
use hs_index::{has_gap, key_in};
use hs_keyed::{KeyedRows, RowTest};
use hs_plan::Expr;
use hs_values::Value;
use std::alloc::Global;

/// Whether a row has NULL in one of these columns.
#[derive(Drop)]
pub(crate) struct Gap<'a> {
    pub(crate) columns: &'a [u32],
}

impl RowTest for Gap<'_> {
    ghost use Rattle.hs_sentences.specs.Sentences.{has_gap};

    ghost test = { λ s. has_gap s.columns.now };

    fn passes(&self, _alloc: Global, _number: RowNo, row: &[Value]) -> Result<bool, NoMemory> {
        Ok(has_gap(self.columns, row))
    }
}

/// Whether another one of these rows has the key that a row has in these columns.
#[derive(Drop)]
pub(crate) struct Double<'a> {
    pub(crate) rows: &'a KeyedRows,
    pub(crate) columns: &'a [u32],
}

impl RowTest for Double<'_> {
    ghost use Rattle.hs_sentences.specs.Sentences.{is_double};

    ghost test = { λ s. is_double s.columns.now s.rows.now };

    fn passes(&self, alloc: Global, number: RowNo, row: &[Value]) -> Result<bool, NoMemory> {
        let key = key_in(alloc, self.columns, row)?;
        self.rows.has_other(self.columns, &key, number)
    }
}

/// Whether a CHECK doesn't let a row pass.
#[derive(Drop)]
pub(crate) struct Failed<'a, C> {
    pub(crate) checks: &'a C,
    pub(crate) condition: &'a Expr,
}

impl<C: Check> RowTest for Failed<'_, C> {
    ghost use Rattle.std.specs.Prelude.{not};

    ghost test = { λ s number row. not (C.checks s.checks.now s.condition.now row) };

    fn passes(&self, _alloc: Global, _number: RowNo, row: &[Value]) -> Result<bool, NoMemory> {
        Ok(!self.checks.lets_pass(self.condition, row)?)
    }
}

/// Whether a row names a key, and none of the parents has it.
#[derive(Drop)]
pub(crate) struct Orphan<'a> {
    pub(crate) columns: &'a [u32],
    pub(crate) parent_columns: &'a [u32],
    pub(crate) parents: &'a KeyedRows,
}

impl RowTest for Orphan<'_> {
    ghost use Rattle.hs_sentences.specs.Sentences.{is_orphan};

    ghost test = { λ s. is_orphan s.columns.now s.parent_columns.now s.parents.now };

    fn passes(&self, alloc: Global, _number: RowNo, row: &[Value]) -> Result<bool, NoMemory> {
        if has_gap(self.columns, row) {
            return Ok(false);
        }
        let key = key_in(alloc, self.columns, row)?;
        Ok(!self.parents.has_key(self.parent_columns, &key)?)
    }
}

/// Whether a child names the key that a row has, and none of the parents has it.
#[derive(Drop)]
pub(crate) struct Missed<'a> {
    pub(crate) columns: &'a [u32],
    pub(crate) parent_columns: &'a [u32],
    pub(crate) parents: &'a KeyedRows,
    pub(crate) children: &'a KeyedRows,
}

impl RowTest for Missed<'_> {
    ghost use Rattle.hs_sentences.specs.Sentences.{is_missed};

    ghost test = { λ s. is_missed s.columns.now s.parent_columns.now s.parents.now s.children.now };

    fn passes(&self, alloc: Global, _number: RowNo, row: &[Value]) -> Result<bool, NoMemory> {
        let key = key_in(alloc, self.parent_columns, row)?;
        if !self.children.has_key(self.columns, &key)? {
            return Ok(false);
        }
        Ok(!self.parents.has_key(self.parent_columns, &key)?)
    }
}
