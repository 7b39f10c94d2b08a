// A row seen in its bytes.
ghost use Rattle.std.specs.Prelude.{◌≡◌, ◌<◌, ◌≤◌, ◌==◌, drop, Some, None, true, List, length, is_some, IsTrue, IfSome, IfNone, IfOk, slice_get, ◌↔◌};
ghost use Rattle.hs_values.specs.Order.{seen};
ghost use Rattle.hs_rowcodec.specs.Reading.{row_of, values_in};

use crate::value::{known_value, value};
use hs_values::{Row, SqlType, Types, Value, ValueRef};
use std::alloc::{AllocError, Global};

/// Whether bytes are the encoding of a row of these types.
fn is_encoding(types: &[SqlType], bytes: &[u8]) -> bool
    ensures { result ≡ is_some (row_of types.now bytes.now) }
{
    let mut rest = bytes;
    for sql_type in types {
        match value(sql_type, rest) {
            Some((_, behind)) => rest = behind,
            None => return false,
        }
    }
    rest.is_empty()
}

/// The bytes behind so many of a row's values.
#[inline]
fn behind<'a>(types: &[SqlType], count: usize, bytes: &'a [u8]) -> &'a [u8]
    requires there { count ≤ length types.now }
    requires encoded { is_some (row_of types.now bytes.now) ≡ true }
    ensures encoded { is_some (row_of (drop count types.now) result.now) ≡ true }
    ensures values { values_in (drop count types.now) result.now ≡ drop count (values_in types.now bytes.now) }
{
    let mut rest = bytes;
    for sql_type in &types[..count] {
        rest = known_value(sql_type, rest).1;
    }
    rest
}

/// The value of a column of a row.
#[inline]
fn field_of<'a>(types: &[SqlType], i: usize, bytes: &'a [u8]) -> ValueRef<'a>
    requires there { i < length types.now }
    requires encoded { is_some (row_of types.now bytes.now) ≡ true }
    ensures { slice_get (values_in types.now bytes.now) i ≡ Some (seen result) }
{
    let rest = behind(types, i, bytes);
    known_value(&types[i], rest).0
}

/// The values of a row.
fn values_of(alloc: Global, types: &[SqlType], bytes: &[u8]) -> Result<Vec<Value>, AllocError>
    requires { is_some (row_of types.now bytes.now) ≡ true }
    ensures { IfOk result (λ values. values.items ≡ values_in types.now bytes.now) }
{
    let mut values = Vec::with_capacity(alloc, types.len())?;
    let mut rest = bytes;
    for sql_type in types {
        let (found, behind) = known_value(sql_type, rest);
        values.push(found.to_value(alloc)?)?;
        rest = behind;
    }
    Ok(values)
}

/// A row of given types, seen in the bytes that encode it: its fields are lent from them.
#[derive(Clone, Copy)]
pub struct RowView<'a> {
    bytes: &'a [u8],
    types: &'a [SqlType],
    ghost encoded: { is_some (row_of types.now bytes.now) ≡ true },
}

impl<'a> RowView<'a> {
    ghost use Rattle.hs_values.specs.declared.value.Value.{Value};
    ghost use Rattle.hs_rowcodec.specs.Encoding.{Encodes};
    ghost use Rattle.hs_rowcodec.specs.View.{row_in};

    /// The row of these types whose encoding is exactly these bytes, seen in them. None exactly where there is
    /// none: where a value is missing or outside its type, a tag is neither 0 nor 1, a text is not UTF-8, or
    /// bytes are left over. There is never more than one. Takes no memory.
    pub fn new(bytes: &'a [u8], types: &'a Types) -> Option<RowView<'a>>
        ensures none { IfNone result ((row : List Value) → ¬ (Encodes types.now row bytes.now)) }
        ensures some { IfSome result (λ view. Encodes types.now (row_in view) bytes.now) }
    {
        let types = types.as_slice();
        if is_encoding(types, bytes) {
            Some(RowView { bytes, types })
        } else {
            None
        }
    }

    /// The number of its columns.
    pub fn len(&self) -> usize
        ensures { result ≡ length (row_in self.now) }
    {
        self.types.len()
    }

    /// Whether it has no column.
    pub fn is_empty(&self) -> bool
        ensures { result ≡ (length (row_in self.now) == 0) }
    {
        self.types.is_empty()
    }

    /// The field of column `i`, counted from 0, lent from the bytes. Takes no memory.
    pub fn field(&self, i: usize) -> ValueRef<'a>
        requires { i < length (row_in self.now) }
        ensures { slice_get (row_in self.now) i ≡ Some (seen result) }
    {
        field_of(self.types, i, self.bytes)
    }

    /// The row in memory of its own. An `Err` is want of it.
    pub fn to_row(&self, alloc: Global) -> Result<Row, AllocError>
        ensures { IfOk result (λ row. row ≡ row_in self.now) }
    {
        Ok(Row::from_vec(values_of(alloc, self.types, self.bytes)?))
    }
}
