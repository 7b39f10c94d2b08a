// Rows and bytes that another program made: Python's `int.to_bytes`, `str.encode` and `bytes.decode`, from the
// rules of the format alone. A second function there reads bytes back, and judged each changed byte below.
use hs_rowcodec::{RowView, are_storable, encode, encode_onto, encoded_len};
use hs_values::SqlType::{Big, Bool as Boolean, Date, Decimal, Integer, Small, Stamp, Varchar};
use hs_values::ValueRef::{Bool, Day, Dec, Int, Micros, Null, Text};
use hs_values::{Row, SqlType, Types, ValueRef, fits_row};
use std::alloc::Global;
use std::process::Abort;
use std::test::Fail;

/// A type, one of its values, and the bytes of the row that has this value alone.
static VALUES: [(SqlType, ValueRef<'static>, &'static [u8]); 46] = [
    (Small, Int(-32768), &[0x01, 0x80, 0x00]),
    (Small, Int(-1), &[0x01, 0xff, 0xff]),
    (Small, Int(0), &[0x01, 0x00, 0x00]),
    (Small, Int(1), &[0x01, 0x00, 0x01]),
    (Small, Int(32767), &[0x01, 0x7f, 0xff]),
    (Small, Null, &[0x00]),
    (Integer, Int(-2147483648), &[0x01, 0x80, 0x00, 0x00, 0x00]),
    (Integer, Int(-1), &[0x01, 0xff, 0xff, 0xff, 0xff]),
    (Integer, Int(0), &[0x01, 0x00, 0x00, 0x00, 0x00]),
    (Integer, Int(1), &[0x01, 0x00, 0x00, 0x00, 0x01]),
    (Integer, Int(2147483647), &[0x01, 0x7f, 0xff, 0xff, 0xff]),
    (Integer, Null, &[0x00]),
    (
        Big,
        Int(-9223372036854775808),
        &[0x01, 0x80, 0x00, 0x00, 0x00, 0x00, 0x00, 0x00, 0x00],
    ),
    (
        Big,
        Int(-1),
        &[0x01, 0xff, 0xff, 0xff, 0xff, 0xff, 0xff, 0xff, 0xff],
    ),
    (
        Big,
        Int(0),
        &[0x01, 0x00, 0x00, 0x00, 0x00, 0x00, 0x00, 0x00, 0x00],
    ),
    (
        Big,
        Int(1),
        &[0x01, 0x00, 0x00, 0x00, 0x00, 0x00, 0x00, 0x00, 0x01],
    ),
    (
        Big,
        Int(9223372036854775807),
        &[0x01, 0x7f, 0xff, 0xff, 0xff, 0xff, 0xff, 0xff, 0xff],
    ),
    (Big, Null, &[0x00]),
    (
        Decimal {
            precision: 1,
            scale: 0,
        },
        Dec(hs_values::Dec {
            units: -9,
            scale: 0,
        }),
        &[
            0x01, 0xff, 0xff, 0xff, 0xff, 0xff, 0xff, 0xff, 0xff, 0xff, 0xff, 0xff, 0xff, 0xff,
            0xff, 0xff, 0xf7,
        ],
    ),
    (
        Decimal {
            precision: 1,
            scale: 0,
        },
        Dec(hs_values::Dec { units: 9, scale: 0 }),
        &[
            0x01, 0x00, 0x00, 0x00, 0x00, 0x00, 0x00, 0x00, 0x00, 0x00, 0x00, 0x00, 0x00, 0x00,
            0x00, 0x00, 0x09,
        ],
    ),
    (
        Decimal {
            precision: 12,
            scale: 2,
        },
        Dec(hs_values::Dec {
            units: -999999999999,
            scale: 2,
        }),
        &[
            0x01, 0xff, 0xff, 0xff, 0xff, 0xff, 0xff, 0xff, 0xff, 0xff, 0xff, 0xff, 0x17, 0x2b,
            0x5a, 0xf0, 0x01,
        ],
    ),
    (
        Decimal {
            precision: 12,
            scale: 2,
        },
        Dec(hs_values::Dec {
            units: 999999999999,
            scale: 2,
        }),
        &[
            0x01, 0x00, 0x00, 0x00, 0x00, 0x00, 0x00, 0x00, 0x00, 0x00, 0x00, 0x00, 0xe8, 0xd4,
            0xa5, 0x0f, 0xff,
        ],
    ),
    (
        Decimal {
            precision: 38,
            scale: 38,
        },
        Dec(hs_values::Dec {
            units: -99999999999999999999999999999999999999,
            scale: 38,
        }),
        &[
            0x01, 0xb4, 0xc4, 0xb3, 0x57, 0xa5, 0x79, 0x3b, 0x85, 0xf6, 0x75, 0xdd, 0xc0, 0x00,
            0x00, 0x00, 0x01,
        ],
    ),
    (
        Decimal {
            precision: 38,
            scale: 38,
        },
        Dec(hs_values::Dec {
            units: 99999999999999999999999999999999999999,
            scale: 38,
        }),
        &[
            0x01, 0x4b, 0x3b, 0x4c, 0xa8, 0x5a, 0x86, 0xc4, 0x7a, 0x09, 0x8a, 0x22, 0x3f, 0xff,
            0xff, 0xff, 0xff,
        ],
    ),
    (
        Decimal {
            precision: 38,
            scale: 0,
        },
        Dec(hs_values::Dec {
            units: -99999999999999999999999999999999999999,
            scale: 0,
        }),
        &[
            0x01, 0xb4, 0xc4, 0xb3, 0x57, 0xa5, 0x79, 0x3b, 0x85, 0xf6, 0x75, 0xdd, 0xc0, 0x00,
            0x00, 0x00, 0x01,
        ],
    ),
    (
        Decimal {
            precision: 38,
            scale: 0,
        },
        Dec(hs_values::Dec {
            units: 99999999999999999999999999999999999999,
            scale: 0,
        }),
        &[
            0x01, 0x4b, 0x3b, 0x4c, 0xa8, 0x5a, 0x86, 0xc4, 0x7a, 0x09, 0x8a, 0x22, 0x3f, 0xff,
            0xff, 0xff, 0xff,
        ],
    ),
    (
        Decimal {
            precision: 12,
            scale: 2,
        },
        Dec(hs_values::Dec {
            units: 5050,
            scale: 2,
        }),
        &[
            0x01, 0x00, 0x00, 0x00, 0x00, 0x00, 0x00, 0x00, 0x00, 0x00, 0x00, 0x00, 0x00, 0x00,
            0x00, 0x13, 0xba,
        ],
    ),
    (
        Decimal {
            precision: 12,
            scale: 2,
        },
        Null,
        &[0x00],
    ),
    (Varchar { max: 3 }, Text(""), &[0x01, 0x00, 0x00]),
    (
        Varchar { max: 3 },
        Text("Bo"),
        &[0x01, 0x00, 0x02, 0x42, 0x6f],
    ),
    (
        Varchar { max: 3 },
        Text("é€😀"),
        &[
            0x01, 0x00, 0x09, 0xc3, 0xa9, 0xe2, 0x82, 0xac, 0xf0, 0x9f, 0x98, 0x80,
        ],
    ),
    (Varchar { max: 3 }, Null, &[0x00]),
    (Boolean, Bool(false), &[0x01, 0x00]),
    (Boolean, Bool(true), &[0x01, 0x01]),
    (Boolean, Null, &[0x00]),
    (Date, Day(-719162), &[0x01, 0xff, 0xf5, 0x06, 0xc6]),
    (Date, Day(-1), &[0x01, 0xff, 0xff, 0xff, 0xff]),
    (Date, Day(0), &[0x01, 0x00, 0x00, 0x00, 0x00]),
    (Date, Day(19782), &[0x01, 0x00, 0x00, 0x4d, 0x46]),
    (Date, Day(2932896), &[0x01, 0x00, 0x2c, 0xc0, 0xa0]),
    (Date, Null, &[0x00]),
    (
        Stamp,
        Micros(-62135596800000000),
        &[0x01, 0xff, 0x23, 0x40, 0x01, 0x00, 0xd4, 0x40, 0x00],
    ),
    (
        Stamp,
        Micros(-1),
        &[0x01, 0xff, 0xff, 0xff, 0xff, 0xff, 0xff, 0xff, 0xff],
    ),
    (
        Stamp,
        Micros(0),
        &[0x01, 0x00, 0x00, 0x00, 0x00, 0x00, 0x00, 0x00, 0x00],
    ),
    (
        Stamp,
        Micros(253402300799999999),
        &[0x01, 0x03, 0x84, 0x44, 0x0c, 0xcc, 0x73, 0x5f, 0xff],
    ),
    (Stamp, Null, &[0x00]),
];

/// A whole number, a text and a truth value that is NULL: the types, the values and the bytes.
static SHOP_TYPES: [SqlType; 3] = [Integer, Varchar { max: 20 }, Boolean];

static SHOP_VALUES: [ValueRef<'static>; 3] = [Int(1), Text("Bo"), Null];

static SHOP: [u8; 11] = [
    0x01, 0x00, 0x00, 0x00, 0x01, 0x01, 0x00, 0x02, 0x42, 0x6f, 0x00,
];

/// The least and the greatest byte at each place with which these bytes are a row; so are all between.
static SHOP_ACCEPTED: [(u8, u8); 11] = [
    (1, 1),
    (0, 255),
    (0, 255),
    (0, 255),
    (0, 255),
    (1, 1),
    (0, 0),
    (2, 2),
    (0, 127),
    (0, 127),
    (0, 0),
];

/// A text of a character of 2 bytes and one of 3, a number of 16 bits and a truth value: the types, the values and the bytes.
static TEXT_TYPES: [SqlType; 3] = [Varchar { max: 3 }, Small, Boolean];

static TEXT_VALUES: [ValueRef<'static>; 3] = [Text("é€"), Int(-2), Bool(true)];

static TEXT: [u8; 13] = [
    0x01, 0x00, 0x05, 0xc3, 0xa9, 0xe2, 0x82, 0xac, 0x01, 0xff, 0xfe, 0x01, 0x01,
];

/// The least and the greatest byte at each place with which these bytes are a row; so are all between.
static TEXT_ACCEPTED: [(u8, u8); 13] = [
    (1, 1),
    (0, 0),
    (5, 5),
    (194, 223),
    (128, 191),
    (225, 239),
    (128, 191),
    (128, 191),
    (1, 1),
    (0, 255),
    (0, 255),
    (1, 1),
    (0, 1),
];

/// A decimal of 3 digits and a date: the types, the values and the bytes.
static PRICE_TYPES: [SqlType; 2] = [
    Decimal {
        precision: 3,
        scale: 1,
    },
    Date,
];

static PRICE_VALUES: [ValueRef<'static>; 2] = [
    Dec(hs_values::Dec {
        units: -999,
        scale: 1,
    }),
    Day(2932896),
];

static PRICE: [u8; 22] = [
    0x01, 0xff, 0xff, 0xff, 0xff, 0xff, 0xff, 0xff, 0xff, 0xff, 0xff, 0xff, 0xff, 0xff, 0xff, 0xfc,
    0x19, 0x01, 0x00, 0x2c, 0xc0, 0xa0,
];

/// The least and the greatest byte at each place with which these bytes are a row; so are all between.
static PRICE_ACCEPTED: [(u8, u8); 22] = [
    (1, 1),
    (255, 255),
    (255, 255),
    (255, 255),
    (255, 255),
    (255, 255),
    (255, 255),
    (255, 255),
    (255, 255),
    (255, 255),
    (255, 255),
    (255, 255),
    (255, 255),
    (255, 255),
    (255, 255),
    (252, 255),
    (25, 255),
    (1, 1),
    (0, 0),
    (0, 44),
    (0, 192),
    (0, 160),
];

fn types_of(alloc: Global, types: &[SqlType]) -> Result<Types, Fail> {
    let mut all = Types::new(alloc);
    for sql_type in types {
        all.push(*sql_type)?;
    }
    Ok(all)
}

fn row_of(alloc: Global, values: &[ValueRef<'_>]) -> Result<Row, Fail> {
    let mut row = Row::new(alloc);
    for value in values {
        row.push(value.to_value(alloc)?)?;
    }
    Ok(row)
}

/// Whether a row has these bytes, written alone and behind others.
fn is_written(alloc: Global, row: &Row, types: &Types, bytes: &[u8]) -> Result<bool, Fail> {
    if !fits_row(types.as_slice(), row.as_slice()) || !are_storable(types) {
        return Ok(false);
    }
    let written = encode(alloc, row, types)?;
    let mut behind = [7, 9].to_vec(alloc)?;
    encode_onto(row, types, &mut behind)?;
    Ok(
        written.as_slice() == bytes
            && encoded_len(row, types) == bytes.len()
            && behind.starts_with(&[7, 9])
            && behind.ends_with(bytes)
            && behind.len() == 2 + bytes.len(),
    )
}

/// Whether bytes are seen as this row.
fn is_seen(alloc: Global, row: &Row, types: &Types, bytes: &[u8]) -> Result<bool, Fail> {
    let Some(view) = RowView::new(bytes, types) else {
        return Ok(false);
    };
    for (i, value) in row.as_slice().iter().enumerate() {
        if i >= view.len() || view.field(i).to_value(alloc)? != *value {
            return Ok(false);
        }
    }
    let copied = view.to_row(alloc)?;
    Ok(view.len() == row.len() && view.is_empty() == row.is_empty() && copied == *row)
}

fn check(
    rt: &impl Abort,
    alloc: Global,
    types: &[SqlType],
    values: &[ValueRef<'_>],
    bytes: &[u8],
) -> Result<(), Fail> {
    let types = types_of(alloc, types)?;
    let row = row_of(alloc, values)?;
    let written = is_written(alloc, &row, &types, bytes)?;
    let seen = is_seen(alloc, &row, &types, bytes)?;
    assert!(rt; written, "{bytes:?}");
    assert!(rt; seen, "{bytes:?}");
    Ok(())
}

/// Each byte changed to each other one is a row exactly where the table has it.
fn check_changes(
    rt: &impl Abort,
    alloc: Global,
    types: &[SqlType],
    bytes: &[u8],
    accepted: &[(u8, u8)],
) -> Result<(), Fail> {
    let types = types_of(alloc, types)?;
    for (at, (least, greatest)) in accepted.iter().enumerate() {
        for byte in 0..=255u8 {
            let mut changed = bytes.to_vec(alloc)?;
            if let Some(place) = changed.get_mut(at) {
                *place = byte;
            }
            let found = RowView::new(&changed, &types).is_some();
            assert!(rt;
                found == (*least <= byte && byte <= *greatest),
                "{byte} at {at} of {bytes:?}"
            );
        }
    }
    Ok(())
}

#[test]
fn values_have_their_bytes(rt: HostRuntime) -> Result<(), Fail> {
    for (sql_type, value, bytes) in &VALUES {
        check(&rt, rt.alloc(), &[*sql_type], &[*value], bytes)?;
    }
    check(&rt, rt.alloc(), &[], &[], &[])?;
    check(&rt, rt.alloc(), &SHOP_TYPES, &SHOP_VALUES, &SHOP)?;
    check(&rt, rt.alloc(), &TEXT_TYPES, &TEXT_VALUES, &TEXT)?;
    check(&rt, rt.alloc(), &PRICE_TYPES, &PRICE_VALUES, &PRICE)
}

#[test]
fn changed_bytes_are_a_row_where_they_spell_one(rt: HostRuntime) -> Result<(), Fail> {
    check_changes(&rt, rt.alloc(), &SHOP_TYPES, &SHOP, &SHOP_ACCEPTED)?;
    check_changes(&rt, rt.alloc(), &TEXT_TYPES, &TEXT, &TEXT_ACCEPTED)?;
    check_changes(&rt, rt.alloc(), &PRICE_TYPES, &PRICE, &PRICE_ACCEPTED)?;
    let shop = types_of(rt.alloc(), &SHOP_TYPES)?;
    assert!(rt; RowView::new(&SHOP[..10], &shop).is_none());
    let mut longer = SHOP.to_vec(rt.alloc())?;
    longer.push(0)?;
    assert!(rt; RowView::new(&longer, &shop).is_none());
    Ok(())
}

/// 16,383 characters of 4 bytes have the length 0xfffc.
#[test]
fn the_longest_text_has_its_bytes(rt: HostRuntime) -> Result<(), Fail> {
    let mut text = String::new(rt.alloc());
    let mut bytes = [0x01, 0xff, 0xfc].to_vec(rt.alloc())?;
    for _character in 0..16_383u32 {
        text.push('😀')?;
        bytes.extend_from_slice(&[0xf0, 0x9f, 0x98, 0x80])?;
    }
    let longest = Varchar { max: 16_383 };
    check(&rt, rt.alloc(), &[longest], &[Text(text.as_str())], &bytes)?;
    let longer = types_of(rt.alloc(), &[Varchar { max: 16_384 }])?;
    assert!(rt; !are_storable(&longer));
    let shorter = types_of(rt.alloc(), &[Varchar { max: 16_382 }])?;
    assert!(rt; RowView::new(&bytes, &shorter).is_none());
    Ok(())
}
