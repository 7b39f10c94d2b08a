// Rows and names as keys of maps, and the order of rows.
use hs_values::{Chars, Dec, Name, Row, Value, order_rows, order_rows_by};
use std::alloc::{AllocError, Global};
use std::cmp::Ordering::{Greater, Less};
use std::collections::{BTreeMap, HashMap};
use std::test::Fail;

// A row of a value and a whole number.
fn pair(alloc: Global, first: Value) -> Result<Row, AllocError> {
    let mut row = Row::new(alloc);
    row.push(first)?;
    row.push(Value::Int(1))?;
    Ok(row)
}

fn decimal(units: i128, scale: u8) -> Value {
    Value::Dec(Dec { units, scale })
}

#[test]
fn rows_have_an_order(rt: HostRuntime) -> Result<(), Fail> {
    let row = pair(rt.alloc(), decimal(10, 0))?;
    let null = pair(rt.alloc(), Value::Null)?;
    assert!(rt; row != null && null < row);
    assert!(rt; order_rows(&[], row.as_slice()) == Less);
    assert!(rt; order_rows_by(row.as_slice(), null.as_slice(), &[true]) == Greater);
    Ok(())
}

#[test]
fn rows_are_keys(rt: HostRuntime) -> Result<(), Fail> {
    let key = pair(rt.alloc(), decimal(10, 0))?;
    let same = pair(rt.alloc(), decimal(100, 1))?;
    assert!(rt; key == same);
    let mut rows = BTreeMap::new(rt.alloc());
    rows.insert(key, 7)?;
    assert!(rt; rows.get(&same).copied() == Some(7));
    Ok(())
}

#[test]
fn names_are_keys(rt: HostRuntime) -> Result<(), Fail> {
    let mut names = HashMap::new(rt.alloc());
    names.insert(Name::from_text(rt.alloc(), "T")?, 1)?;
    assert!(rt; names.get(&Name::from_text(rt.alloc(), "T")?).copied() == Some(1));
    Ok(())
}

#[test]
fn texts_have_an_order(rt: HostRuntime) -> Result<(), Fail> {
    assert!(rt; Chars::from_text(rt.alloc(), "Z")? < Chars::from_text(rt.alloc(), "a")?);
    Ok(())
}
