// The bytes of a row.
ghost use Rattle.std.specs.Prelude.{◌≡◌, ◌++◌, ◌^◌, ◌<◌, true, length, take, OnOk, OnErr, IfOk, IsTrue, min};
ghost use Rattle.std.specs.Int.{w16, w32, w64, w128, to_be_bytes};
ghost use Rattle.hs_values.specs.SqlType.{fits_of, row_fits};
ghost use Rattle.hs_rowcodec.specs.Encoding.{signed_bytes, width_of, value_bytes, row_bytes, is_storable, are_storable, IsWritable, AreWritable, Encodes};

use crate::length::encoded_len;
use hs_values::{Bytes, Row, SqlType, Types, Value};
use std::alloc::{AllocError, Global};

#[tactic(auto, unfolding(crate::specs::Encoding::signed_bytes))]
/// Writes a whole number of a type.
fn encode_whole(n: i64, sql_type: &SqlType, out: &mut Vec<u8>) -> Result<(), AllocError>
    requires { fits_of sql_type.now (Value.Int n) ≡ true }
    ensures ok { OnOk result (out.new.items ≡ out.old.items ++ signed_bytes (width_of sql_type.now) n) }
    ensures err { OnErr result (out.new.items ≡ out.old.items) }
{
    match sql_type {
        SqlType::Small => out.extend_from_slice(&(n as i16).to_be_bytes()),
        SqlType::Integer => out.extend_from_slice(&(n as i32).to_be_bytes()),
        _ => out.extend_from_slice(&n.to_be_bytes()),
    }
}

#[tactic(auto, unfolding(crate::specs::Encoding::signed_bytes))]
/// Writes the units of a decimal.
fn encode_units(units: i128, out: &mut Vec<u8>) -> Result<(), AllocError>
    ensures ok { OnOk result (out.new.items ≡ out.old.items ++ signed_bytes w128 units) }
    ensures err { OnErr result (out.new.items ≡ out.old.items) }
{
    out.extend_from_slice(&units.to_be_bytes())
}

#[tactic(auto, unfolding(crate::specs::Encoding::signed_bytes))]
/// Writes the number of a day.
fn encode_day(day: i32, out: &mut Vec<u8>) -> Result<(), AllocError>
    ensures ok { OnOk result (out.new.items ≡ out.old.items ++ signed_bytes w32 day) }
    ensures err { OnErr result (out.new.items ≡ out.old.items) }
{
    out.extend_from_slice(&day.to_be_bytes())
}

#[tactic(auto, unfolding(crate::specs::Encoding::signed_bytes))]
/// Writes microseconds.
fn encode_micros(micros: i64, out: &mut Vec<u8>) -> Result<(), AllocError>
    ensures ok { OnOk result (out.new.items ≡ out.old.items ++ signed_bytes w64 micros) }
    ensures err { OnErr result (out.new.items ≡ out.old.items) }
{
    out.extend_from_slice(&micros.to_be_bytes())
}

/// Writes a text, behind its length.
fn encode_text(text: &str, out: &mut Vec<u8>) -> Result<(), AllocError>
    requires { length text.now < 2 ^ 16 }
    ensures ok { OnOk result (out.new.items ≡ out.old.items ++ (to_be_bytes w16 (length text.now) ++ text.now)) }
    ensures kept { take (length out.old.items) out.new.items ≡ out.old.items }
{
    let text = text.as_bytes();
    out.extend_from_slice(&(text.len() as u16).to_be_bytes())?;
    out.extend_from_slice(text)
}

#[tactic(auto, using(crate::proofs::Texts::text_is_short))]
/// Writes a value behind its tag.
fn encode_value(value: &Value, sql_type: &SqlType, out: &mut Vec<u8>) -> Result<(), AllocError>
    requires fits { fits_of sql_type.now value.now ≡ true }
    requires storable { is_storable sql_type.now ≡ true }
    ensures ok { OnOk result (out.new.items ≡ out.old.items ++ value_bytes sql_type.now value.now) }
    ensures writable { OnOk result (IsWritable value.now) }
    ensures kept { take (length out.old.items) out.new.items ≡ out.old.items }
{
    if let Value::Null = value {
        out.push(0)?;
        return Ok(());
    }
    out.push(1)?;
    match value {
        Value::Null => Ok(()),
        Value::Int(n) => encode_whole(*n, sql_type, out),
        Value::Dec(d) => encode_units(d.units, out),
        Value::Text(text) => encode_text(text.as_str(), out),
        Value::Bool(b) => {
            out.push(u8::from(*b))?;
            Ok(())
        }
        Value::Day(day) => encode_day(*day, out),
        Value::Micros(micros) => encode_micros(*micros, out),
    }
}

/// Writes the values of a row.
fn encode_values(row: &[Value], types: &[SqlType], out: &mut Vec<u8>) -> Result<(), AllocError>
    requires fits { row_fits types.now row.now ≡ true }
    requires storable { are_storable types.now ≡ true }
    ensures ok { OnOk result (out.new.items ≡ out.old.items ++ row_bytes types.now row.now) }
    ensures writable { OnOk result (AreWritable row.now) }
    ensures kept { take (length out.old.items) out.new.items ≡ out.old.items }
{
    for (i, sql_type) in types.iter().enumerate() {
        encode_value(&row[i], sql_type, out)?;
    }
    Ok(())
}

/// Writes the encoding of a row behind the bytes that are there, which are not moved where there is room.
/// The row has one value for each of the types, each one of its own type's. A VARCHAR has at most 16,383
/// characters, so that the length of a text has 2 bytes. After an `Err`, which is want of memory, nothing is
/// changed.
pub fn encode_onto(row: &Row, types: &Types, out: &mut Vec<u8>) -> Result<(), AllocError>
    requires fits { row_fits types.now row.now ≡ true }
    requires storable { are_storable types.now ≡ true }
    ensures ok { OnOk result (out.new.items ≡ out.old.items ++ row_bytes types.now row.now) }
    ensures encodes { OnOk result (Encodes types.now row.now (row_bytes types.now row.now)) }
    ensures err { OnErr result (out.new.items ≡ out.old.items) }
{
    let len = out.len();
    let done = encode_values(row.as_slice(), types.as_slice(), out);
    if done.is_err() {
        out.truncate(len);
    }
    done
}

/// The encoding of a row, which has one value for each of the types, each one of its own type's. A VARCHAR
/// has at most 16,383 characters, so that the length of a text has 2 bytes. An `Err` is want of memory.
pub fn encode(alloc: Global, row: &Row, types: &Types) -> Result<Bytes, AllocError>
    requires fits { row_fits types.now row.now ≡ true }
    requires storable { are_storable types.now ≡ true }
    ensures { IfOk result (λ bytes. Encodes types.now row.now bytes) }
{
    let mut bytes = Vec::with_capacity(alloc, encoded_len(row, types))?;
    encode_values(row.as_slice(), types.as_slice(), &mut bytes)?;
    Ok(Bytes::from_vec(bytes))
}
