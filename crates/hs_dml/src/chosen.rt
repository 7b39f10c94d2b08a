// The rows for which a condition is TRUE.
ghost use Rattle.std.specs.Prelude.{◌≡◌, List, fold, map, Some, Ok, Result, OnOk, IfOk};
ghost use Rattle.std.specs.FinMap.{entries};
ghost use Rattle.hs_base.specs.declared.numbers.RowNo.{RowNo as RowNumber};
ghost use Rattle.hs_values.specs.declared.fault.EvalFault.{EvalFault as Fault};
ghost use Rattle.hs_values.specs.declared.value.Value.{Value as SqlValue};
ghost use Rattle.hs_values.specs.Outcome.{Gives};
ghost use Rattle.hs_rel.specs.Selection as selection;
ghost use Rattle.hs_dml.specs.Candidates.{AreCandidates};
ghost use Rattle.hs_dml.specs.Rows as spec;

use crate::faults::lesser_of;
use hs_base::{NoMemory, RowName, RowNo, RowNos, TableNo};
use hs_cascade::RowsBefore;
use hs_newrows::Evaluates;
use hs_plan::Expr;
use hs_values::{EvalFault, Row, Value};
use std::alloc::Global;

/// The rows that are chosen so far, and the least fault of the condition so far.
#[derive(Drop)]
pub(crate) struct Chosen {
    pub(crate) rows: RowNos,
    pub(crate) fault: Option<EvalFault>,
}

fn is_true(value: &Value) -> bool
    ensures { result ≡ selection.is_true (Ok value.now) }
{
    match value {
        Value::Bool(b) => *b,
        _ => false,
    }
}

impl Chosen {
    fn new(alloc: Global) -> Chosen
        ensures { result ≡ spec.none_chosen }
    {
        Chosen {
            rows: RowNos::new(alloc),
            fault: None,
        }
    }

    // Takes in what the condition gives for the next row.
    fn take(&mut self, row: RowNo, verdict: Result<Value, EvalFault>) -> Result<(), NoMemory>
        ensures { OnOk result ((means : Result SqlValue Fault) → Gives verdict means → self.new ≡ spec.with_verdict self.old row means) }
    {
        match verdict {
            Ok(value) => {
                if is_true(&value) {
                    self.rows.push(row)?;
                }
                Ok(())
            }
            Err(EvalFault::NoMemory) => Err(NoMemory),
            Err(fault) => {
                self.fault = Some(lesser_of(self.fault, fault));
                Ok(())
            }
        }
    }
}

// Judges a row.
fn judge<E: Evaluates, B: RowsBefore>(
    chosen: &mut Chosen,
    evaluator: &E,
    before: &B,
    condition: &Expr,
    name: RowName,
) -> Result<(), NoMemory>
    ensures { OnOk result (chosen.new ≡ spec.judged_at (B.maps before.now name.table.0) (E.evaluate evaluator.now condition.now) chosen.old name.row) }
{
    match before.row(name) {
        Some(row) => chosen.take(name.row, evaluator.value(condition, row)),
        None => Ok(()),
    }
}

fn judge_all<E: Evaluates, B: RowsBefore>(
    chosen: &mut Chosen,
    evaluator: &E,
    before: &B,
    condition: &Expr,
    table: TableNo,
    rows: &[RowNo],
) -> Result<(), NoMemory>
    ensures { OnOk result (chosen.new ≡ fold (spec.judged_at (B.maps before.now table.0) (E.evaluate evaluator.now condition.now)) chosen.old rows.now) }
{
    for row in rows {
        judge(
            chosen,
            evaluator,
            before,
            condition,
            RowName { table, row: *row },
        )?;
    }
    Ok(())
}

// All rows of a table.
fn all_rows<B: RowsBefore>(alloc: Global, before: &B, table: TableNo) -> Result<RowNos, NoMemory>
    ensures { IfOk result (λ rows. rows ≡ map spec.number_of (entries (B.maps before.now table.0))) }
{
    // Each row has the key of no columns.
    let rows = before.rows_with(table, &[], &Row::new(alloc))?;
    Ok(rows)
}

// Those that an index finds by the key that a condition asks for, else all. The condition chooses no other row, and has no
// fault for one.
fn candidates<E: Evaluates, B: RowsBefore>(
    alloc: Global,
    evaluator: &E,
    before: &B,
    condition: &Expr,
    table: TableNo,
) -> Result<RowNos, NoMemory>
    ensures { IfOk result (AreCandidates (E.evaluate evaluator.now condition.now) (B.maps before.now table.0)) }
{
    let asked = evaluator.equalities(alloc, condition)?;
    if let Some(columns) = before.index_among(table, asked.columns()) {
        if let Some(key) = asked.key(alloc, columns)? {
            return before.rows_with(table, columns, &key);
        }
    }
    all_rows(alloc, before, table)
}

// Those for which a condition is TRUE, and the least of its faults.
fn chosen_for<E: Evaluates, B: RowsBefore>(
    alloc: Global,
    evaluator: &E,
    before: &B,
    condition: &Expr,
    table: TableNo,
) -> Result<Chosen, NoMemory>
    ensures { IfOk result (λ made. selection.unless made.fault made.rows ≡ spec.numbers_for (E.evaluate evaluator.now) (Some condition.now) (B.maps before.now table.0)) }
{
    let rows = candidates(alloc, evaluator, before, condition, table)?;
    let mut made = Chosen::new(alloc);
    judge_all(
        &mut made,
        evaluator,
        before,
        condition,
        table,
        rows.as_slice(),
    )?;
    Ok(made)
}

// The rows, or the least fault.
fn ended(made: Result<Chosen, NoMemory>) -> Result<RowNos, EvalFault>
    ensures { (means : Result (List RowNumber) Fault) → IfOk made (λ all. selection.unless all.fault all.rows ≡ means) → Gives result means }
{
    match made {
        Ok(made) => match made.fault {
            Some(fault) => Err(fault),
            None => Ok(made.rows),
        },
        Err(NoMemory) => Err(EvalFault::NoMemory),
    }
}

// The same rows, want of memory among the faults.
fn told(rows: Result<RowNos, NoMemory>) -> Result<RowNos, EvalFault>
    ensures { (means : List RowNumber) → IfOk rows (λ all. all ≡ means) → Gives result (Ok means) }
{
    match rows {
        Ok(rows) => Ok(rows),
        Err(NoMemory) => Err(EvalFault::NoMemory),
    }
}

/// The numbers of the rows of a table for which a condition is TRUE, of all without one, in ascending order. An `Err` is the
/// least of the condition's faults, or `NoMemory` for want of memory.
pub(crate) fn numbers_for<E: Evaluates, B: RowsBefore>(
    alloc: Global,
    evaluator: &E,
    before: &B,
    condition: &Option<Expr>,
    table: TableNo,
) -> Result<RowNos, EvalFault>
    ensures { Gives result (spec.numbers_for (E.evaluate evaluator.now) condition.now (B.maps before.now table.0)) }
{
    match condition {
        Some(e) => ended(chosen_for(alloc, evaluator, before, e, table)),
        None => told(all_rows(alloc, before, table)),
    }
}
