// Claims and sets of sessions as texts.
use hs_base::SessionNo;
use hs_casetext::{CaseFault, push_line};
use hs_claims::{Blockers, Claim, Claims, Resource};
use hs_values::{Row, ValueRef};
use std::alloc::{AllocError, Global};

fn push_value(to: &mut String, value: ValueRef<'_>) -> Result<(), AllocError> {
    match value {
        ValueRef::Null => to.push_str("NULL"),
        ValueRef::Int(n) => write!(to, "{n}"),
        ValueRef::Dec(decimal) => {
            let units = decimal.units;
            let scale = decimal.scale;
            write!(to, "{units}e{scale}")
        }
        ValueRef::Text(text) => write!(to, "'{text}'"),
        ValueRef::Bool(truth) => write!(to, "{truth}"),
        ValueRef::Day(day) => write!(to, "d{day}"),
        ValueRef::Micros(micros) => write!(to, "m{micros}"),
    }
}

fn push_values(to: &mut String, values: &Row) -> Result<(), AllocError> {
    let mut is_first = true;
    for value in values.as_slice() {
        if !is_first {
            to.push('/')?;
        }
        push_value(to, value.as_value_ref())?;
        is_first = false;
    }
    Ok(())
}

fn push_resource(to: &mut String, resource: &Resource) -> Result<(), AllocError> {
    match resource {
        Resource::Catalog => to.push_str("catalog"),
        Resource::Table(table) => {
            let table = table.0;
            write!(to, "t{table}")
        }
        Resource::Row(table, row) => {
            let table = table.0;
            let row = row.0;
            write!(to, "r{table}:{row}")
        }
        Resource::Key(table, constraint, values) => {
            let table = table.0;
            let constraint = constraint.0;
            write!(to, "k{table}:{constraint}:")?;
            push_values(to, values)
        }
    }
}

fn push_claim(to: &mut String, claim: &Claim) -> Result<(), AllocError> {
    push_resource(to, &claim.resource)?;
    if claim.exclusive {
        to.push('!')?;
    }
    Ok(())
}

/// Adds a line with a word and the claims behind it.
pub fn push_claims(to: &mut String, word: &str, claims: &Claims) -> Result<(), CaseFault> {
    let mut line = String::from_str(*to.allocator(), word)?;
    if claims.is_empty() {
        line.push_str(" none")?;
    }
    for claim in claims.as_slice() {
        line.push(' ')?;
        push_claim(&mut line, claim)?;
    }
    Ok(push_line(to, line.as_str())?)
}

/// The text of a set of sessions: their numbers, or `nobody`.
pub fn sessions_text(alloc: Global, set: Blockers) -> Result<String, AllocError> {
    let mut text = String::new(alloc);
    for s in 1..65_u32 {
        if set.has(SessionNo(s)) {
            if !text.is_empty() {
                text.push_str(", ")?;
            }
            write!(text, "{s}")?;
        }
    }
    if text.is_empty() {
        text.push_str("nobody")?;
    }
    Ok(text)
}
