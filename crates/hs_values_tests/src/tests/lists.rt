// Each list once: what it has after each call.
use hs_values::SqlType::{Small, Varchar};
use hs_values::{Bytes, Chars, Name, Row, RowList, Types, Value, Words, fits_row};
use std::alloc::{AllocError, Global};
use std::test::Fail;

#[test]
fn bytes_are_listed(rt: HostRuntime) -> Result<(), Fail> {
    let mut bytes = Bytes::new(rt.alloc());
    assert!(rt; bytes.is_empty());
    bytes.push(7)?;
    bytes.extend(&[8, 9])?;
    assert!(rt; bytes.copy()?.as_slice() == [7, 8, 9].as_slice());
    bytes.clear();
    assert!(rt; Bytes::from_vec(bytes.into_vec()).len() == 0);
    Ok(())
}

#[test]
fn types_are_listed(rt: HostRuntime) -> Result<(), Fail> {
    let mut types = Types::new(rt.alloc());
    assert!(rt; types.is_empty());
    types.push(Small)?;
    assert!(rt; types.copy()?.as_slice() == [Small].as_slice());
    assert!(rt; Types::from_vec(types.into_vec()).len() == 1);
    Ok(())
}

#[test]
fn characters_are_listed(rt: HostRuntime) -> Result<(), Fail> {
    let mut chars = Chars::new(rt.alloc());
    assert!(rt; chars.is_empty());
    chars.push_text("añ")?;
    chars.push('b')?;
    assert!(rt; chars.copy()?.as_str() == "añb");
    assert!(rt; Chars::from_string(chars.into_string()).len() == 4);
    Ok(())
}

#[test]
fn names_are_texts(rt: HostRuntime) -> Result<(), Fail> {
    let name = Name::from_string(String::from_str(rt.alloc(), "T")?);
    assert!(rt; name.copy()?.as_str() == "T");
    assert!(rt; Name::from_text(rt.alloc(), "T")?.as_str() == "T");
    Ok(())
}

#[test]
fn words_are_listed(rt: HostRuntime) -> Result<(), Fail> {
    let mut words = Words::new(rt.alloc());
    words.push(Chars::from_text(rt.alloc(), "hsql")?)?;
    assert!(rt; words.copy()?.as_slice().len() == 1);
    Ok(())
}

// A row of a text.
fn row(alloc: Global) -> Result<Row, AllocError> {
    let mut row = Row::new(alloc);
    row.push(Value::Text(Chars::from_text(alloc, "x")?))?;
    Ok(row)
}

#[test]
fn values_of_a_row_are_listed(rt: HostRuntime) -> Result<(), Fail> {
    assert!(rt; Row::new(rt.alloc()).is_empty());
    let row = row(rt.alloc())?;
    assert!(rt; row.len() == 1);
    assert!(rt; fits_row(&[Varchar { max: 1 }], row.as_slice()));
    assert!(rt; !fits_row(&[Small], row.as_slice()));
    assert!(rt; row.copy()?.as_slice().len() == 1);
    assert!(rt; Row::from_vec(row.into_vec()).len() == 1);
    Ok(())
}

#[test]
fn rows_are_listed(rt: HostRuntime) -> Result<(), Fail> {
    let mut rows = RowList::new(rt.alloc());
    assert!(rt; rows.is_empty());
    rows.push(row(rt.alloc())?)?;
    rows.push(row(rt.alloc())?)?;
    assert!(rt; rows.copy()?.as_slice().len() == 2);
    assert!(rt; RowList::from_vec(rows.into_vec()).len() == 2);
    Ok(())
}
