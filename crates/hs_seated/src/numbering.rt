// The numbers that inserted rows get at a commit.
ghost use Rattle.std.specs.Prelude.{◌≡◌, ◌+◌, ◌^◌, ◌≤◌, ◌++◌, length, map, IfOk, OnOk};
ghost use Rattle.hs_turns.specs.Numbers as spec;

use hs_base::{NoMemory, RowNo};
use hs_plan::{Change, Changes};
use std::alloc::Global;

// The number before the first one of a row that an open transaction inserts.
const BEFORE_OWN: u64 = 0x8000_0000_0000_0000;

// Adds the number of a change, where it inserts a row.
fn add_number(numbers: &mut Vec<u64>, number: u64, change: &Change) -> Result<(), NoMemory>
    ensures { OnOk result (numbers.new.items ≡ numbers.old.items ++ spec.number_in number change.now) }
{
    match change {
        Change::Insert(_, _) => Ok(numbers.push(number)?),
        Change::Put(_, _, _) => Ok(()),
        Change::Delete(_, _) => Ok(()),
        Change::Define(_) => Ok(()),
    }
}

// The numbers of the inserted rows, the first change having the number behind this count.
fn numbers(alloc: Global, count: u64, changes: &[Change]) -> Result<Vec<u64>, NoMemory>
    requires { count + length changes.now ≤ 2 ^ 48 }
    ensures { IfOk result (λ numbers. numbers.items ≡ spec.numbers_from (count + 1) changes.now) }
{
    let mut numbers = Vec::new(alloc);
    let mut number = count;
    for change in changes {
        number += 1;
        add_number(&mut numbers, number, change)?;
    }
    Ok(numbers)
}

fn final_row(numbers: &[u64], row: RowNo) -> RowNo
    ensures { result.0 ≡ spec.final_row numbers.now row.0 }
{
    if row.0 <= BEFORE_OWN {
        return row;
    }
    match numbers.get((row.0 - BEFORE_OWN - 1) as usize) {
        Some(number) => RowNo(*number),
        None => row,
    }
}

fn final_change(alloc: Global, numbers: &[u64], change: &Change) -> Result<Change, NoMemory>
    ensures { IfOk result (λ made. made ≡ spec.final_change numbers.now change.now) }
{
    match change {
        Change::Put(table, row, values) => {
            let values = values.copy()?;
            Ok(Change::Put(*table, final_row(numbers, *row), values))
        }
        Change::Delete(table, row) => Ok(Change::Delete(*table, final_row(numbers, *row))),
        Change::Insert(_, _) => Ok(change.copy(alloc)?),
        Change::Define(_) => Ok(change.copy(alloc)?),
    }
}

fn final_changes(
    alloc: Global,
    numbers: &[u64],
    changes: &[Change],
) -> Result<Vec<Change>, NoMemory>
    ensures { IfOk result (λ made. made.items ≡ map (spec.final_change numbers.now) changes.now) }
{
    let mut made = Vec::with_capacity(alloc, changes.len())?;
    for change in changes {
        made.push(final_change(alloc, numbers, change)?)?;
    }
    Ok(made)
}

/// The changes of a transaction as it commits them on a database with so many changes: a row that it inserted has the number of
/// its change wherever a change names it. An `Err` is want of memory.
pub fn numbered(alloc: Global, count: u64, changes: &Changes) -> Result<Changes, NoMemory>
    requires { count + length changes.now ≤ 2 ^ 48 }
    ensures { IfOk result (λ made. made ≡ spec.numbered count changes.now) }
{
    let numbers = numbers(alloc, count, changes.as_slice())?;
    let made = final_changes(alloc, numbers.as_slice(), changes.as_slice())?;
    Ok(Changes::from_vec(made))
}
