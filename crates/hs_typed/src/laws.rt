//! Laws of the definitions, each on a function that does nothing.
ghost use Rattle.std.specs.Prelude.{◌≡◌, ◌↔◌, ◌++◌, ℕ, List, [], Option, None, Some};
ghost use Rattle.hs_plan.specs.declared.fault.PlacedFault.{PlacedFault};
ghost use Rattle.hs_plan.specs.declared.kind.Kind.{Kind};
ghost use Rattle.hs_typed.specs.Comparing.{beside, literal_text, reading_of};
ghost use Rattle.hs_typed.specs.Faults.{noted, least, IsLeast};
ghost use Rattle.hs_typed.specs.declared.typed.Typed.{Typed};

/// The fault that is answered is one of the faults, and none of them comes before it. There is one where there are
/// faults. Faults may be noted part by part.
pub fn the_least_fault_is_answered()
    ensures none { (faults : List PlacedFault) → (least faults ≡ None) ↔ (faults ≡ []) }
    ensures least { (faults : List PlacedFault) (fault : PlacedFault) → least faults ≡ Some fault → IsLeast fault faults }
    ensures parts { (known : Option PlacedFault) (a b : List PlacedFault) → noted known (a ++ b) ≡ noted (noted known a) b }
{}

/// Literal texts alone are read as something else, and only beside dates and timestamps.
pub fn literal_texts_alone_are_read()
    ensures others { (kind : Kind) (a : Typed) → literal_text a.tree ≡ None → beside kind a ≡ a }
    ensures elsewhere { (kind : Kind) (a : Typed) → ((text : List ℕ) → reading_of kind text ≡ None) → beside kind a ≡ a }
{}
