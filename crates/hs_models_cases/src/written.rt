// Claims, footprints and sessions as a case writes them.
ghost use Rattle.std.specs.Prelude.{IfOk};
ghost use Rattle.hs_claims.specs.Session.{IsSession};

use hs_base::{ConstraintNo, RowName, RowNames, RowNo, SessionNo, TableNo, Tables};
use hs_casetext::CaseFault;
use hs_claims::{Claim, Claims, Footprint, KeyName, KeyNames, Level, Resource};
use hs_values::{Chars, Dec, Row, Value};
use std::alloc::Global;

/// What stands before the next space and what stands behind it.
pub fn halves(text: &str) -> Result<(&str, &str), CaseFault> {
    text.split_once(' ').ok_or(CaseFault::Unreadable)
}

/// A session by its number from 1 to 64.
pub fn session_in(text: &str) -> Result<SessionNo, CaseFault>
    ensures { IfOk result (λ s. IsSession s.0) }
{
    let number = text.parse::<u32>()?;
    if number >= 1 && number <= 64 {
        Ok(SessionNo(number))
    } else {
        Err(CaseFault::Unreadable)
    }
}

/// A level by its name here: `rc`, `ser` or `snap`.
pub fn level_in(text: &str) -> Result<Level, CaseFault> {
    match text {
        "rc" => Ok(Level::Rc),
        "ser" => Ok(Level::Ser),
        "snap" => Ok(Level::Snap),
        _ => Err(CaseFault::Unreadable),
    }
}

/// Whether a transaction is read-only: `ro`, and `rw` where it isn't.
pub fn read_only_in(text: &str) -> Result<bool, CaseFault> {
    match text {
        "ro" => Ok(true),
        "rw" => Ok(false),
        _ => Err(CaseFault::Unreadable),
    }
}

fn table_in(text: &str) -> Result<TableNo, CaseFault> {
    Ok(TableNo(text.parse::<u64>()?))
}

// A row: its table, `:` and its number.
fn row_in(text: &str) -> Result<RowName, CaseFault> {
    let (table, row) = text.split_once(':').ok_or(CaseFault::Unreadable)?;
    Ok(RowName {
        table: table_in(table)?,
        row: RowNo(row.parse::<u64>()?),
    })
}

// A value: NULL, a text in quotes, a whole number, or a decimal as its units, `e` and its scale.
fn value_in(alloc: Global, text: &str) -> Result<Value, CaseFault> {
    if text == "NULL" {
        return Ok(Value::Null);
    }
    if let Some(text) = text.strip_prefix('\'') {
        let inside = text.strip_suffix('\'').ok_or(CaseFault::Unreadable)?;
        return Ok(Value::Text(Chars::from_text(alloc, inside)?));
    }
    match text.split_once('e') {
        Some((units, scale)) => Ok(Value::Dec(Dec {
            units: units.parse::<i128>()?,
            scale: scale.parse::<u8>()?,
        })),
        None => Ok(Value::Int(text.parse::<i64>()?)),
    }
}

// The values of a key, with `/` between them.
fn values_in(alloc: Global, text: &str) -> Result<Row, CaseFault> {
    let mut values = Row::new(alloc);
    for value in text.split('/') {
        values.push(value_in(alloc, value)?)?;
    }
    Ok(values)
}

// A key: its table, `:`, its constraint, `:` and its values.
fn key_in(alloc: Global, text: &str) -> Result<KeyName, CaseFault> {
    let (table, behind) = text.split_once(':').ok_or(CaseFault::Unreadable)?;
    let (constraint, values) = behind.split_once(':').ok_or(CaseFault::Unreadable)?;
    Ok(KeyName {
        table: table_in(table)?,
        constraint: ConstraintNo(constraint.parse::<u64>()?),
        values: values_in(alloc, values)?,
    })
}

// A resource: `catalog`, or behind `t` a table, behind `r` a row and behind `k` a key.
fn resource_in(alloc: Global, text: &str) -> Result<Resource, CaseFault> {
    if text == "catalog" {
        return Ok(Resource::Catalog);
    }
    if let Some(table) = text.strip_prefix('t') {
        return Ok(Resource::Table(table_in(table)?));
    }
    if let Some(row) = text.strip_prefix('r') {
        let row = row_in(row)?;
        return Ok(Resource::Row(row.table, row.row));
    }
    let key = key_in(alloc, text.strip_prefix('k').ok_or(CaseFault::Unreadable)?)?;
    Ok(Resource::Key(key.table, key.constraint, key.values))
}

/// A claim: its resource, and `!` behind it where it is exclusive.
pub fn claim_in(alloc: Global, text: &str) -> Result<Claim, CaseFault> {
    match text.strip_suffix('!') {
        Some(resource) => Ok(Claim {
            resource: resource_in(alloc, resource)?,
            exclusive: true,
        }),
        None => Ok(Claim {
            resource: resource_in(alloc, text)?,
            exclusive: false,
        }),
    }
}

/// Claims with spaces between them; `-` is none.
pub fn claims_in(alloc: Global, text: &str) -> Result<Claims, CaseFault> {
    let mut claims = Claims::new(alloc);
    if text == "-" {
        return Ok(claims);
    }
    for claim in text.split(' ') {
        let claim = claim_in(alloc, claim)?;
        if claims.push(claim).is_err() {
            return Err(CaseFault::NoMemory);
        }
    }
    Ok(claims)
}

// A part of a footprint.
#[derive(Clone, Copy)]
enum Part {
    Reads,
    Writes,
    Rows,
    Keys,
    Parents,
}

fn part_of(word: &str) -> Option<Part> {
    match word {
        "reads" => Some(Part::Reads),
        "writes" => Some(Part::Writes),
        "rows" => Some(Part::Rows),
        "keys" => Some(Part::Keys),
        "parents" => Some(Part::Parents),
        _ => None,
    }
}

// Adds one thing to the part of a footprint that is written.
fn add_to(
    footprint: &mut Footprint,
    alloc: Global,
    part: Part,
    text: &str,
) -> Result<(), CaseFault> {
    let added = match part {
        Part::Reads => footprint.reads.push(table_in(text)?),
        Part::Writes => footprint.writes.push(table_in(text)?),
        Part::Rows => footprint.rows.push(row_in(text)?),
        Part::Keys => footprint.keys.push(key_in(alloc, text)?),
        Part::Parents => footprint.parents.push(key_in(alloc, text)?),
    };
    if added.is_err() {
        return Err(CaseFault::NoMemory);
    }
    Ok(())
}

/// A footprint: `reads`, `writes`, `rows`, `keys` and `parents`, each with what it has behind it; `-` is none.
pub fn footprint_in(alloc: Global, text: &str) -> Result<Footprint, CaseFault> {
    let mut footprint = Footprint {
        reads: Tables::new(alloc),
        writes: Tables::new(alloc),
        rows: RowNames::new(alloc),
        keys: KeyNames::new(alloc),
        parents: KeyNames::new(alloc),
    };
    if text == "-" {
        return Ok(footprint);
    }
    let mut part = Part::Reads;
    for word in text.split(' ') {
        match part_of(word) {
            Some(next) => part = next,
            None => add_to(&mut footprint, alloc, part, word)?,
        }
    }
    Ok(footprint)
}
