// Keys, and an index from call to call.
use hs_base::{RowNo, RowNos};
use hs_index::{Index, has_gap, has_null, key_in};
use hs_values::{Chars, Dec, Row, Value};
use std::alloc::{AllocError, Global};
use std::test::Fail;

// A key of a number and a text.
fn named(alloc: Global, number: Value, text: &str) -> Result<Row, AllocError> {
    let mut key = Row::new(alloc);
    key.push(number)?;
    key.push(Value::Text(Chars::from_text(alloc, text)?))?;
    Ok(key)
}

fn one(alloc: Global, value: Value) -> Result<Row, AllocError> {
    let mut key = Row::new(alloc);
    key.push(value)?;
    Ok(key)
}

fn decimal(units: i128, scale: u8) -> Value {
    Value::Dec(Dec { units, scale })
}

fn numbers(alloc: Global, all: &[u64]) -> Result<RowNos, AllocError> {
    let mut rows = Vec::new(alloc);
    for number in all {
        rows.push(RowNo(*number))?;
    }
    Ok(RowNos::from_vec(rows))
}

// Puts each row under the key of its number alone.
fn put_all(alloc: Global, index: &mut Index, key: i64, rows: &[u64]) -> Result<(), Fail> {
    for row in rows {
        index.insert(one(alloc, Value::Int(key))?, RowNo(*row))?;
    }
    Ok(())
}

#[test]
fn a_key_is_the_values_in_its_columns(rt: HostRuntime) -> Result<(), Fail> {
    let alloc = rt.alloc();
    let row = named(alloc, Value::Int(7), "x")?;
    let key = key_in(alloc, &[1, 0, 9], row.as_slice())?;
    assert_eq!(rt; key.len(), 3);
    assert!(rt; has_null(key.as_slice()) && has_gap(&[1, 0, 9], row.as_slice()));
    let both = key_in(alloc, &[0, 1], row.as_slice())?;
    assert!(rt; both == row && !has_null(both.as_slice()) && !has_gap(&[0, 1], row.as_slice()));
    assert!(rt; !has_null(key_in(alloc, &[], row.as_slice())?.as_slice()));
    Ok(())
}

#[test]
fn rows_of_a_key_ascend_and_none_is_twice(rt: HostRuntime) -> Result<(), Fail> {
    let alloc = rt.alloc();
    let mut index = Index::new(alloc);
    let key = one(alloc, Value::Int(5))?;
    assert!(rt; index.find(&key).is_empty());
    put_all(alloc, &mut index, 5, &[30, 10, 20, 10, 40, 30])?;
    put_all(alloc, &mut index, 6, &[u64::MAX, 0])?;
    assert_eq!(rt;
        index.find(&key),
        numbers(alloc, &[10, 20, 30, 40])?.as_slice()
    );
    let other = one(alloc, Value::Int(6))?;
    assert_eq!(rt;
        index.find(&other),
        numbers(alloc, &[0, u64::MAX])?.as_slice()
    );
    Ok(())
}

#[test]
fn rows_are_taken_out(rt: HostRuntime) -> Result<(), Fail> {
    let alloc = rt.alloc();
    let mut index = Index::new(alloc);
    let key = one(alloc, Value::Int(5))?;
    put_all(alloc, &mut index, 5, &[1, 2, 3])?;
    put_all(alloc, &mut index, 4, &[2])?;
    index.remove(&key, RowNo(2));
    index.remove(&key, RowNo(9));
    assert_eq!(rt; index.find(&key), numbers(alloc, &[1, 3])?.as_slice());
    index.remove(&key, RowNo(1));
    index.remove(&key, RowNo(3));
    index.remove(&key, RowNo(3));
    assert!(rt; index.find(&key).is_empty());
    let other = one(alloc, Value::Int(4))?;
    assert_eq!(rt; index.find(&other), numbers(alloc, &[2])?.as_slice());
    put_all(alloc, &mut index, 5, &[7])?;
    assert_eq!(rt; index.find(&key), numbers(alloc, &[7])?.as_slice());
    Ok(())
}

#[test]
fn a_row_takes_the_place_of_another(rt: HostRuntime) -> Result<(), Fail> {
    let alloc = rt.alloc();
    let mut index = Index::new(alloc);
    let key = one(alloc, Value::Int(5))?;
    index.exchange(one(alloc, Value::Int(5))?, RowNo(8), RowNo(9))?;
    assert_eq!(rt; index.find(&key), numbers(alloc, &[9])?.as_slice());
    index.exchange(one(alloc, Value::Int(5))?, RowNo(9), RowNo(4))?;
    assert_eq!(rt; index.find(&key), numbers(alloc, &[4])?.as_slice());
    put_all(alloc, &mut index, 5, &[2, 6, u64::MAX])?;
    index.exchange(one(alloc, Value::Int(5))?, RowNo(u64::MAX), RowNo(5))?;
    assert_eq!(rt; index.find(&key), numbers(alloc, &[2, 4, 5, 6])?.as_slice());
    index.exchange(one(alloc, Value::Int(5))?, RowNo(4), RowNo(4))?;
    index.exchange(one(alloc, Value::Int(5))?, RowNo(2), RowNo(6))?;
    index.exchange(one(alloc, Value::Int(5))?, RowNo(3), RowNo(1))?;
    assert_eq!(rt; index.find(&key), numbers(alloc, &[1, 4, 5, 6])?.as_slice());
    Ok(())
}

#[test]
fn equal_numbers_are_one_key(rt: HostRuntime) -> Result<(), Fail> {
    let alloc = rt.alloc();
    let mut index = Index::new(alloc);
    index.insert(named(alloc, decimal(100, 2), "a")?, RowNo(1))?;
    index.insert(named(alloc, Value::Int(1), "a")?, RowNo(2))?;
    index.insert(named(alloc, decimal(1, 0), "A")?, RowNo(3))?;
    index.insert(named(alloc, decimal(10, 2), "a")?, RowNo(4))?;
    let key = named(alloc, decimal(10, 1), "a")?;
    assert_eq!(rt; index.find(&key), numbers(alloc, &[1, 2])?.as_slice());
    index.remove(&key, RowNo(1));
    let whole = named(alloc, Value::Int(1), "a")?;
    assert_eq!(rt; index.find(&whole), numbers(alloc, &[2])?.as_slice());
    let text = one(alloc, Value::Int(1))?;
    assert!(rt; index.find(&text).is_empty());
    Ok(())
}
