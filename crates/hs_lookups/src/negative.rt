// Whole numbers with a minus.
ghost use Rattle.std.specs.Prelude.{◌≡◌, IfSome, IsTrue, Ok};
ghost use Rattle.hs_expression.specs.Numbers.{minus_value};
ghost use Rattle.hs_lookups.specs.Conjuncts.{negated, Gives};
ghost use Rattle.hs_lookups.specs.Sure.{IsSure};
ghost use Rattle.hs_values.specs.declared.value.Value.TheVariants as v;

use hs_plan::Expr;
use hs_values::Value;

/// What a minus before a literal gives, where this is a whole number that may have one.
pub(crate) fn negative_of(a: &Expr) -> Option<i64>
    ensures { IfSome result (λ n. Gives (negated a.now) (v.Int n)) }
{
    match a {
        Expr::Literal(value) => minus(value),
        _ => None,
    }
}

/// Whether it is sure that a minus before an expression has no fault.
pub(crate) fn is_sure_with_minus(a: &Expr) -> bool
    ensures { IsTrue result → IsSure (negated a.now) }
{
    negative_of(a).is_some()
}

#[tactic(auto, using(hs_expression::proofs::Wholes::narrow))]
fn minus(value: &Value) -> Option<i64>
    ensures { IfSome result (λ n. minus_value value.now ≡ Ok (v.Int n)) }
{
    match value {
        Value::Int(n) => n.checked_neg(),
        _ => None,
    }
}
