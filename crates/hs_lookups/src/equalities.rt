// The values that a condition asks columns to have.
ghost use Rattle.std.specs.Prelude.{◌≡◌, [], ◌∷◌, ◌++◌, IfOk, IfSome, OnOk};
ghost use Rattle.hs_answer.specs.Answer.{value_in};
ghost use Rattle.hs_answer.specs.Places.{value_over};
ghost use Rattle.hs_changes.specs.Settings.{Maps};
ghost use Rattle.hs_expression.specs.Surroundings.{Rows};
ghost use Rattle.hs_rel.specs.Selection.{Verdict};
ghost use Rattle.hs_lookups.specs.Asked.{Asks, AsksOne, Narrows};

use crate::conjuncts::take_in;
use crate::sure::is_sure;
use hs_plan::Expr;
use hs_values::{Row, Value};
use std::alloc::{AllocError, Global};

/// Columns of a row, counted from 0, each with the value that a condition asks it to have.
#[derive(Drop)]
pub struct Equalities {
    pub(crate) columns: Vec<u32>,
    pub(crate) values: Row,
}

impl Equalities {
    /// The columns that a condition asks to have some value: where the condition is TRUE for a row, or has a fault, each has
    /// its value there. None where the condition may have a fault. An `Err` is want of memory.
    pub fn of(alloc: Global, condition: &Expr) -> Result<Equalities, AllocError>
        ensures { IfOk result (λ all. (tables : Maps) (outer : Rows) → Asks (value_over (value_in tables condition.now) outer) all.columns.items all.values) }
    {
        let mut all = Equalities {
            columns: Vec::new(alloc),
            values: Row::new(alloc),
        };
        if is_sure(condition) {
            take_in(condition, &mut all)?;
        }
        Ok(all)
    }

    /// One more column with its value. An `Err` is want of memory.
    pub(crate) fn push(&mut self, column: u32, value: Value) -> Result<(), AllocError>
        ensures columns { OnOk result (self.new.columns.items ≡ self.old.columns.items ++ column ∷ []) }
        ensures values { OnOk result (self.new.values ≡ self.old.values ++ value ∷ []) }
    {
        self.columns.push(column)?;
        self.values.push(value)
    }

    /// The columns. Takes no memory.
    pub fn columns(&self) -> &[u32]
        ensures { result.now ≡ self.now.columns.items }
    {
        self.columns.as_slice()
    }

    // The value that a column is asked to have, the first one where there are several.
    fn value_for(&self, column: u32) -> Option<&Value>
        ensures { IfSome result (λ value. (verdict : Verdict) → Asks verdict self.now.columns.items self.now.values → AsksOne verdict column value.now) }
    {
        for (each, value) in self.columns.iter().zip(self.values.as_slice()) {
            if *each == column {
                return Some(value);
            }
        }
        None
    }

    /// The key that rows have in these columns: None where one of them isn't asked to have a value. An `Err` is want of memory.
    pub fn key(&self, alloc: Global, columns: &[u32]) -> Result<Option<Row>, AllocError>
        ensures { IfOk result (λ found. IfSome found (λ key. (verdict : Verdict) → Asks verdict self.now.columns.items self.now.values → Narrows verdict columns.now key)) }
    {
        let mut key = Vec::with_capacity(alloc, columns.len())?;
        for column in columns {
            match self.value_for(*column) {
                Some(value) => key.push(value.copy()?)?,
                None => return Ok(None),
            }
        }
        Ok(Some(Row::from_vec(key)))
    }
}
