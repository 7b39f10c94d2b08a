//! Laws of operations on NULL, each on a function that does nothing. Proofs of other crates cite them from
//! `proofs/OfNull.antt`.
ghost use Rattle.std.specs.Prelude.{◌≡◌, true, Ok};
ghost use Rattle.hs_plan.specs.declared.operator.Binary.{Binary};
ghost use Rattle.hs_plan.specs.declared.operator.Unary.{Unary};
ghost use Rattle.hs_values.specs.declared.value.Value.{Value};
ghost use Rattle.hs_values.specs.declared.value.Value.TheVariants as v;
ghost use Rattle.hs_expression.specs.Nulls.{unary_of_null, is_strict};
ghost use Rattle.hs_expression.specs.Operators.{unary_value, binary_value};

/// An operation on NULL gives NULL, and no fault: on one operand all but IS NULL and IS NOT NULL, on two operands
/// all but AND, OR and NULLIF, on whichever side NULL stands.
pub fn an_operation_on_null_gives_null()
    ensures unary { (operator : Unary) → unary_value operator v.Null ≡ Ok (unary_of_null operator) }
    ensures left { (operator : Binary) (a : Value) → is_strict operator ≡ true → binary_value operator v.Null a ≡ Ok v.Null }
    ensures right { (operator : Binary) (a : Value) → is_strict operator ≡ true → binary_value operator a v.Null ≡ Ok v.Null }
{}
