// One value in its bytes.
ghost use Rattle.std.specs.Prelude.{◌≡◌, true, false, IfNone, IfSome, Some, None, is_some};
ghost use Rattle.std.specs.Str.{is_utf8};
ghost use Rattle.hs_values.specs.Order.{seen};
ghost use Rattle.hs_rowcodec.specs.Reading.{chars_at, text_at, truth_at, body_at, value_at};

use hs_values::{Dec, SqlType, ValueRef};

#[tactic(auto, using(crate::proofs::Texts::text_passes, crate::proofs::Texts::no_text_fails))]
/// The bytes as a text, where they are UTF-8.
fn utf8(bytes: &[u8]) -> Option<&str>
    ensures none { IfNone result (is_utf8 bytes.now ≡ false) }
    ensures some { IfSome result (λ text. (text.now ≡ bytes.now) × (is_utf8 bytes.now ≡ true)) }
{
    match std::str::from_utf8(bytes) {
        Ok(text) => Some(text),
        Err(_) => None,
    }
}

/// A text of so many bytes at the front, and the bytes behind it.
#[inline(always)]
fn chars(len: usize, bytes: &[u8]) -> Option<(ValueRef<'_>, &[u8])>
    ensures none { IfNone result (chars_at len bytes.now ≡ None) }
    ensures some { IfSome result (λ found. chars_at len bytes.now ≡ Some (seen found.0, found.1.now)) }
{
    let (text, rest) = bytes.split_at_checked(len)?;
    Some((ValueRef::Text(utf8(text)?), rest))
}

/// What stands behind the tag of a value that is not NULL, and the bytes behind it.
#[inline(always)]
fn body<'a>(sql_type: &SqlType, bytes: &'a [u8]) -> Option<(ValueRef<'a>, &'a [u8])>
    ensures none { IfNone result (body_at sql_type.now bytes.now ≡ None) }
    ensures some { IfSome result (λ found. body_at sql_type.now bytes.now ≡ Some (seen found.0, found.1.now)) }
{
    match sql_type {
        SqlType::Small => {
            let (number, rest) = bytes.split_first_chunk()?;
            Some((ValueRef::Int(i64::from(i16::from_be_bytes(*number))), rest))
        }
        SqlType::Integer => {
            let (number, rest) = bytes.split_first_chunk()?;
            Some((ValueRef::Int(i64::from(i32::from_be_bytes(*number))), rest))
        }
        SqlType::Big => {
            let (number, rest) = bytes.split_first_chunk()?;
            Some((ValueRef::Int(i64::from_be_bytes(*number)), rest))
        }
        SqlType::Decimal {
            precision: _,
            scale,
        } => {
            let (number, rest) = bytes.split_first_chunk()?;
            let d = Dec {
                units: i128::from_be_bytes(*number),
                scale: *scale,
            };
            Some((ValueRef::Dec(d), rest))
        }
        SqlType::Varchar { max: _ } => match bytes {
            [high, low, rest @ ..] => chars(usize::from(*high) * 256 + usize::from(*low), rest),
            _ => None,
        },
        SqlType::Bool => match bytes {
            [0, rest @ ..] => Some((ValueRef::Bool(false), rest)),
            [1, rest @ ..] => Some((ValueRef::Bool(true), rest)),
            _ => None,
        },
        SqlType::Date => {
            let (number, rest) = bytes.split_first_chunk()?;
            Some((ValueRef::Day(i32::from_be_bytes(*number)), rest))
        }
        SqlType::Stamp => {
            let (number, rest) = bytes.split_first_chunk()?;
            Some((ValueRef::Micros(i64::from_be_bytes(*number)), rest))
        }
    }
}

/// The value at the front of bytes, if one of this type stands there, and the bytes behind it.
#[inline(always)]
pub(crate) fn value<'a>(sql_type: &SqlType, bytes: &'a [u8]) -> Option<(ValueRef<'a>, &'a [u8])>
    ensures none { IfNone result (value_at sql_type.now bytes.now ≡ None) }
    ensures some { IfSome result (λ found. value_at sql_type.now bytes.now ≡ Some (seen found.0, found.1.now)) }
{
    match bytes {
        [0, rest @ ..] => Some((ValueRef::Null, rest)),
        [1, behind @ ..] => {
            let (found, rest) = body(sql_type, behind)?;
            if found.fits(sql_type) {
                Some((found, rest))
            } else {
                None
            }
        }
        _ => None,
    }
}

/// A text of so many bytes that is known to stand at the front, and the bytes behind it.
#[inline(always)]
fn known_chars(len: usize, bytes: &[u8]) -> (ValueRef<'_>, &[u8])
    requires { is_some (chars_at len bytes.now) ≡ true }
    ensures { chars_at len bytes.now ≡ Some (seen result.0, result.1.now) }
{
    let (text, rest) = bytes.split_at(len);
    let text = unsafe { std::str::from_utf8_unchecked(text) };
    (ValueRef::Text(text), rest)
}

/// A text that is known to stand at the front, behind its length.
#[inline(always)]
fn known_text(bytes: &[u8]) -> (ValueRef<'_>, &[u8])
    requires { is_some (text_at bytes.now) ≡ true }
    ensures { text_at bytes.now ≡ Some (seen result.0, result.1.now) }
{
    match bytes {
        [high, low, rest @ ..] => {
            known_chars(usize::from(*high) * 256 + usize::from(*low), rest)
        }
        _ => unreachable!(),
    }
}

/// What is known to stand behind a tag.
#[inline(always)]
fn known_body<'a>(sql_type: &SqlType, bytes: &'a [u8]) -> (ValueRef<'a>, &'a [u8])
    requires { is_some (body_at sql_type.now bytes.now) ≡ true }
    ensures { body_at sql_type.now bytes.now ≡ Some (seen result.0, result.1.now) }
{
    if let SqlType::Varchar { max: _ } = sql_type {
        return known_text(bytes);
    }
    match body(sql_type, bytes) {
        Some(found) => found,
        None => unreachable!(),
    }
}

/// The value at the front of bytes where one of this type is known to stand, and the bytes behind it.
#[inline(always)]
pub(crate) fn known_value<'a>(sql_type: &SqlType, bytes: &'a [u8]) -> (ValueRef<'a>, &'a [u8])
    requires { is_some (value_at sql_type.now bytes.now) ≡ true }
    ensures { value_at sql_type.now bytes.now ≡ Some (seen result.0, result.1.now) }
{
    match bytes {
        [] => unreachable!(),
        [0, rest @ ..] => (ValueRef::Null, rest),
        [_, behind @ ..] => known_body(sql_type, behind),
    }
}
