// Rows as texts: rows are parted by `;` and columns by `,`. NULL is `-`, TRUE `t`, FALSE `f`, a timestamp `!`; a
// number is its digits, and anything else is a text.
use hs_values::{Chars, Row, RowList, Value};
use std::alloc::{AllocError, Global};
use std::fmt::Write;
use std::io;

fn read_value(alloc: Global, text: &str) -> Result<Value, AllocError> {
    match text {
        "-" => Ok(Value::Null),
        "t" => Ok(Value::Bool(true)),
        "f" => Ok(Value::Bool(false)),
        "!" => Ok(Value::Micros(0)),
        _ => match text.parse::<i64>() {
            Ok(n) => Ok(Value::Int(n)),
            Err(_) => Ok(Value::Text(Chars::from_text(alloc, text)?)),
        },
    }
}

fn read_row(alloc: Global, text: &str) -> Result<Row, AllocError> {
    let mut row = Row::new(alloc);
    for column in text.split(',') {
        row.push(read_value(alloc, column)?)?;
    }
    Ok(row)
}

pub fn read(alloc: Global, text: &str) -> Result<RowList, AllocError> {
    let mut rows = RowList::new(alloc);
    if text.is_empty() {
        return Ok(rows);
    }
    for row in text.split(';') {
        rows.push(read_row(alloc, row)?)?;
    }
    Ok(rows)
}

fn write_value(out: &mut String, value: &Value) -> Result<(), AllocError> {
    match value {
        Value::Null => out.push('-'),
        Value::Bool(true) => out.push('t'),
        Value::Bool(false) => out.push('f'),
        Value::Int(n) => out.push_str(format!(in *out.allocator(); "{n}")?.as_str()),
        Value::Text(text) => out.push_str(text.as_str()),
        _ => out.push('!'),
    }
}

fn write_row(out: &mut String, row: &Row) -> Result<(), AllocError> {
    let mut before = "";
    for value in row.as_slice() {
        out.push_str(before)?;
        write_value(out, value)?;
        before = ",";
    }
    Ok(())
}

pub fn written(alloc: Global, rows: &RowList) -> Result<String, AllocError> {
    let mut out = String::new(alloc);
    let mut before = "";
    for row in rows.as_slice() {
        out.push_str(before)?;
        write_row(&mut out, row)?;
        before = ";";
    }
    Ok(out)
}
