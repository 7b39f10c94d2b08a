// Literals and the names of types.
ghost use Rattle.std.specs.Prelude.{◌≡◌, IfOk};
ghost use Rattle.hs_typed.specs.Literals as spec;

use crate::typed::Typed;
use hs_ast::{DataType, Literal, Number, Word};
use hs_plan::{Expr, Kind};
use hs_temporal::{read_date, read_stamp};
use hs_values::{Chars, Dec, SqlType, Value};
use std::alloc::{AllocError, Global};

/// The type that is written.
pub fn sql_type(data_type: DataType) -> SqlType
    ensures { result ≡ spec.sql_type_of data_type }
{
    match data_type {
        DataType::SmallInt => SqlType::Small,
        DataType::Integer => SqlType::Integer,
        DataType::BigInt => SqlType::Big,
        DataType::Decimal { precision, scale } => SqlType::Decimal { precision, scale },
        DataType::Varchar(max) => SqlType::Varchar { max },
        DataType::Boolean => SqlType::Bool,
        DataType::Date => SqlType::Date,
        DataType::Timestamp => SqlType::Stamp,
    }
}

fn typed(value: Value, kind: Kind) -> Typed
    ensures { result ≡ spec.value_typed value kind }
{
    Typed {
        tree: Expr::Literal(value),
        kind,
    }
}

fn decimal(number: Number) -> Typed
    ensures { result ≡ spec.value_typed (Value.Dec (record { units = number.units; scale = number.scale })) (Kind.Decimal number.scale) }
{
    let value = Value::Dec(Dec {
        units: number.units,
        scale: number.scale,
    });
    typed(value, Kind::Decimal(number.scale))
}

fn number_typed(number: Number) -> Typed
    ensures { result ≡ spec.number_typed number }
{
    if number.scale != 0 {
        return decimal(number);
    }
    match i64::try_from(number.units) {
        Ok(n) => typed(Value::Int(n), Kind::Whole),
        Err(_) => decimal(number),
    }
}

fn text_of(word: &Word, alloc: Global) -> Result<Chars, AllocError>
    ensures { IfOk result (λ text. text ≡ word.now) }
{
    Chars::from_text(alloc, word.as_str())
}

fn date_typed(word: &Word, alloc: Global) -> Result<Typed, AllocError>
    ensures { IfOk result (λ a. a ≡ spec.literal_typed (Literal.Date word.now)) }
{
    match read_date(word.as_str()) {
        Ok(day) => Ok(typed(Value::Day(day), Kind::Date)),
        Err(_) => Ok(Typed {
            tree: Expr::BadMoment {
                timestamp: false,
                text: text_of(word, alloc)?,
            },
            kind: Kind::Date,
        }),
    }
}

fn timestamp_typed(word: &Word, alloc: Global) -> Result<Typed, AllocError>
    ensures { IfOk result (λ a. a ≡ spec.literal_typed (Literal.Timestamp word.now)) }
{
    match read_stamp(word.as_str()) {
        Ok(micros) => Ok(typed(Value::Micros(micros), Kind::Timestamp)),
        Err(_) => Ok(Typed {
            tree: Expr::BadMoment {
                timestamp: true,
                text: text_of(word, alloc)?,
            },
            kind: Kind::Timestamp,
        }),
    }
}

/// A literal: a whole number that fits BIGINT is one and every other number a decimal of as many digits behind the
/// point as are written; DATE or TIMESTAMP with a text that is none is a fault of its evaluation. An `Err` is want of
/// memory.
pub fn bind_literal(literal: &Literal, alloc: Global) -> Result<Typed, AllocError>
    ensures { IfOk result (λ a. a ≡ spec.literal_typed literal.now) }
{
    match literal {
        Literal::Null => Ok(typed(Value::Null, Kind::Null)),
        Literal::Boolean(truth) => Ok(typed(Value::Bool(*truth), Kind::Boolean)),
        Literal::Number(number) => Ok(number_typed(*number)),
        Literal::Text(word) => Ok(typed(Value::Text(text_of(word, alloc)?), Kind::Text)),
        Literal::Date(word) => date_typed(word, alloc),
        Literal::Timestamp(word) => timestamp_typed(word, alloc),
    }
}
