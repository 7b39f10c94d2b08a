// Values as a column stores them.
ghost use Rattle.std.specs.Prelude.{◌≡◌, true, IfOk, if◌then◌else◌};
ghost use Rattle.hs_values.specs.declared.fault.EvalFault.TheVariants.{Range};
ghost use Rattle.hs_values.specs.SqlType.{fits_of, misfit_of, assign_of};

use crate::compare::whole;
use crate::decimal::rescale;
use crate::fault::EvalFault;
use crate::sql_type::{SqlType, fits};
use crate::value::{Dec, Value};

/// The value itself, where it is one of the type's.
fn stored(v: Value, t: &SqlType) -> Result<Value, EvalFault>
    ensures { result ≡ (if fits_of t.now v then Ok v else Err (misfit_of v)) }
{
    if fits(t, &v) {
        return Ok(v);
    }
    match v {
        Value::Text(_) => Err(EvalFault::TooLong),
        _ => Err(EvalFault::Range),
    }
}

#[tactic(auto, using(crate::proofs::Assigned::too_wide_whole))]
/// The units of a decimal of scale 0, where they are one of the type's whole numbers.
fn stored_whole(d: Dec, t: &SqlType) -> Result<Value, EvalFault>
    ensures { result ≡ (if fits_of t.now (Value.Int d.units) then Ok (Value.Int d.units) else Err Range) }
{
    match i64::try_from(d.units) {
        Ok(n) => stored(Value::Int(n), t),
        Err(_) => Err(EvalFault::Range),
    }
}

#[tactic(auto, using(crate::proofs::Assigned::decimal_misfit, crate::proofs::Assigned::decimal_stored, crate::proofs::Assigned::whole_misfit, crate::proofs::Assigned::whole_stored))]
/// A number as a column of the type stores it.
fn assign_number(d: Dec, t: &SqlType) -> Result<Value, EvalFault>
    ensures { result ≡ assign_of t.now (Value.Dec d) }
{
    match t {
        SqlType::Decimal { scale, .. } => stored(Value::Dec(rescale(d, *scale)?), t),
        _ => stored_whole(rescale(d, 0)?, t),
    }
}

/// The value as a column of the type stores it. A number is given the column's scale, cut toward
/// zero: to a DECIMAL's, or to a whole number for SMALLINT, INTEGER and BIGINT. A text goes to a
/// VARCHAR, and any other value to its own type, as it is; NULL goes to every type. `Range` exactly
/// where the number then isn't one of the type's, and `TooLong` exactly where the text has more
/// characters than the type. (A value of a kind that can't be assigned to the type isn't one of the
/// type's either.) Takes no memory.
pub fn assign(v: Value, t: &SqlType) -> Result<Value, EvalFault>
    ensures value { result ≡ assign_of t.now v }
    ensures fits { IfOk result (λ stored. fits_of t.now stored ≡ true) }
{
    match v {
        Value::Dec(d) => assign_number(d, t),
        Value::Int(n) => match t {
            SqlType::Decimal { .. } => assign_number(whole(n), t),
            _ => stored(Value::Int(n), t),
        },
        other => stored(other, t),
    }
}
