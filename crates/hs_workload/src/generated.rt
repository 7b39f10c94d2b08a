// The generated input.
ghost use Rattle.std.specs.Prelude.{◌≡◌, ◌^◌, ◌<◌, ◌≤◌, ◌+◌, ◌++◌, IfOk, OnOk};
ghost use Rattle.hs_workload.specs.Generator.{next_number, insert_line, autocommit_line, statement_of, entry_line, table_lines, lines, number_of, generated};

use crate::summary::push_number;
use hs_base::NoMemory;
use hs_values::Bytes;
use std::alloc::{AllocError, Global};

// At least the bytes in front of the entries, and those of the longest entry.
const HEAD_BYTES: usize = 4096;

const ENTRY_BYTES: usize = 48;

// The number that follows x.
fn next_number(x: u32) -> u32
    ensures { result ≡ next_number x }
{
    ((1_103_515_245 * u64::from(x) + 12_345) % (1 << 31)) as u32
}

fn push_inserts(out: &mut Bytes) -> Result<(), AllocError>
    ensures { OnOk result (out.new ≡ out.old ++ lines insert_line 100) }
{
    for i in 0..100_u64 {
        out.extend(b"s0: INSERT INTO W VALUES (")?;
        push_number(out, i)?;
        out.extend(b",0);\n")?;
    }
    Ok(())
}

fn push_autocommits(out: &mut Bytes) -> Result<(), AllocError>
    ensures { OnOk result (out.new ≡ out.old ++ lines autocommit_line 4) }
{
    for session in 0..4_u64 {
        out.extend(b"s")?;
        push_number(out, session)?;
        out.extend(b": SET AUTOCOMMIT FALSE;\n")?;
    }
    Ok(())
}

fn push_statement(out: &mut Bytes, x: u32) -> Result<(), AllocError>
    ensures { OnOk result (out.new ≡ out.old ++ statement_of x) }
{
    if (x / 4) % 5 == 0 {
        return out.extend(b"COMMIT;\n");
    }
    out.extend(b"UPDATE W SET V = V + 1 WHERE ID = ")?;
    push_number(out, u64::from((x / 20) % 100))?;
    out.extend(b";\n")?;
    Ok(())
}

fn push_entry(out: &mut Bytes, x: u32) -> Result<(), AllocError>
    ensures { OnOk result (out.new ≡ out.old ++ entry_line x) }
{
    out.extend(b"s")?;
    push_number(out, u64::from(x % 4))?;
    out.extend(b": ")?;
    push_statement(out, x)
}

fn push_entries(out: &mut Bytes, n: u32) -> Result<(), AllocError>
    ensures { OnOk result (out.new ≡ out.old ++ lines (λ i. entry_line (number_of n (i + 1))) n) }
{
    let mut x = n;
    for _ in 0..n {
        x = next_number(x);
        push_entry(out, x)?;
    }
    Ok(())
}

/// The input of n entries, with one entry a line: a CACHED table of 100 rows under MVCC, autocommit off in four
/// sessions, and then n entries, of which about one in five is a COMMIT and the others each add 1 to one row.
/// Numbers from a linear congruence choose the session, the statement and the row, so that n fixes every byte.
pub fn text(alloc: Global, n: u32) -> Result<Bytes, NoMemory>
    ensures { IfOk result (λ text. text ≡ generated n) }
{
    let mut out = Bytes::from_vec(Vec::with_capacity(
        alloc,
        HEAD_BYTES + ENTRY_BYTES * n as usize,
    )?);
    out.extend(
        b"s0: CREATE CACHED TABLE W (ID INTEGER PRIMARY KEY, V INTEGER);\ns0: SET DATABASE TRANSACTION CONTROL MVCC;\n",
    )?;
    push_inserts(&mut out)?;
    push_autocommits(&mut out)?;
    push_entries(&mut out, n)?;
    Ok(out)
}
