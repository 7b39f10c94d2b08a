//! Laws of the test of equal conditions, each on a function that does nothing. Proofs of other crates cite them from `Alike.antt`
//! in `proofs/`.
ghost use Rattle.std.specs.Bool.{Decides};
ghost use Rattle.std.specs.Prelude.{◌≡◌, Option, Some, true};
ghost use Rattle.hs_alike.specs.Alike.{gives, same_condition};
ghost use Rattle.hs_plan.specs.declared.expression.Expr.{Expr};
ghost use Rattle.hs_sameness.specs.Plain.{is_plain};

/// Expressions of which the test tells that they are the same are equal, and a plain one is the same as itself.
pub fn same_conditions_are_equal()
    ensures sound { (a b : Expr) → same_condition a b ≡ true → a ≡ b }
    ensures complete { (a b : Expr) → is_plain a ≡ true → a ≡ b → same_condition a b ≡ true }
{}

/// Whether a reader that may give no condition gives this one, which is plain, is told exactly.
pub fn what_gives_a_condition_is_told()
    ensures { (found : Option Expr) (e : Expr) → Decides (gives found e) ((is_plain e ≡ true) × (found ≡ Some e)) }
{}
