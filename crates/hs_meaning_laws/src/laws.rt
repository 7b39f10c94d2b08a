//! Laws of what queries mean, each on a function that does nothing.
ghost use Rattle.std.specs.Prelude.{◌≡◌, ℕ, Bool, true, false, nat_eq, List, [], ◌++◌, Option, None, Some, Err};
ghost use Rattle.std.specs.List.{list_any};
ghost use Rattle.hs_ast.specs.declared.expression.Aggregate.{Aggregate};
ghost use Rattle.hs_plan.specs.declared.fault.BindFault.{BindFault};
ghost use Rattle.hs_plan.specs.declared.fault.BindFault.TheVariants as fault;
ghost use Rattle.hs_plan.specs.declared.fault.Cause.TheVariants as cause;
ghost use Rattle.hs_plan.specs.declared.fault.PlacedFault.{PlacedFault};
ghost use Rattle.hs_plan.specs.declared.kind.Kind.{Kind};
ghost use Rattle.hs_plan.specs.declared.query.Query.{Query};
ghost use Rattle.hs_plan.specs.Fault.{fault_of};
ghost use Rattle.hs_scope.specs.declared.from_table.FromTable.{FromTable};
ghost use Rattle.hs_typed.specs.declared.typed.Typed.{Typed};
ghost use Rattle.hs_typed.specs.Faults.{fault_at, IsLeast};
ghost use Rattle.hs_meaning.specs.Expressions.{aggregate_meaning, place_meaning};
ghost use Rattle.hs_meaning.specs.Parts.{Meaning};
ghost use Rattle.hs_meaning.specs.Statements.{IsAnswer};
ghost use Rattle.hs_meaning.specs.Surroundings.{Surroundings, in_aggregate, in_check, in_values, over_groups, over_rows};

/// A plan is answered only where there is no fault. A fault that is answered stands for one of the faults, and none of them
/// comes before that one; so where there is no fault, none is answered.
pub fn the_answered_fault_is_the_least()
    ensures fault { (faults : List PlacedFault) (means : Option Query) (answer : BindFault) → IsAnswer faults means (Err answer) → ¬ (answer ≡ fault.NoMemory) → (least : PlacedFault) × IsLeast least faults × (fault_of least ≡ answer) }
    ensures none { (means : Option Query) (answer : BindFault) → IsAnswer [] means (Err answer) → ¬ ¬ (answer ≡ fault.NoMemory) }
{}

/// Where rows are grouped, a column of the own FROM that is no GROUP BY expression is a fault of types, one that is one
/// isn't, and inside an aggregate no column is one.
pub fn a_column_outside_group_by_is_a_fault()
    ensures outside { (at place : ℕ) (kind : Option Kind) (tables : List FromTable) (columns : List ℕ) (s : Surroundings) → list_any (nat_eq place) columns ≡ false → (place_meaning at (over_groups tables (Some columns) s) 0 place kind).faults ≡ fault_at at cause.Types }
    ensures inside { (at place : ℕ) (kind : Option Kind) (tables : List FromTable) (columns : List ℕ) (s : Surroundings) → list_any (nat_eq place) columns ≡ true → (place_meaning at (over_groups tables (Some columns) s) 0 place kind).faults ≡ [] }
    ensures aggregate { (at place : ℕ) (kind : Option Kind) (tables : List FromTable) (columns : Option (List ℕ)) (s : Surroundings) → (place_meaning at (in_aggregate (over_groups tables columns s)) 0 place kind).faults ≡ [] }
{}

/// An aggregate is a fault of types at itself in ON, WHERE, GROUP BY and a key of ORDER BY, inside another aggregate, in
/// VALUES and in a CHECK, whatever its operand.
pub fn aggregates_stand_in_items_and_having_alone()
    ensures rows { (function : Aggregate) (distinct : Bool) (at : ℕ) (tables : List FromTable) (s : Surroundings) (a : Meaning Typed) → (aggregate_meaning function distinct at (over_rows tables s) a).faults ≡ a.faults ++ fault_at at cause.Types }
    ensures nested { (function : Aggregate) (distinct : Bool) (at : ℕ) (s : Surroundings) (a : Meaning Typed) → (aggregate_meaning function distinct at (in_aggregate s) a).faults ≡ a.faults ++ fault_at at cause.Types }
    ensures values { (function : Aggregate) (distinct : Bool) (at : ℕ) (s : Surroundings) (a : Meaning Typed) → (aggregate_meaning function distinct at (in_values s) a).faults ≡ a.faults ++ fault_at at cause.Types }
    ensures check { (function : Aggregate) (distinct : Bool) (at : ℕ) (s : Surroundings) (a : Meaning Typed) → (aggregate_meaning function distinct at (in_check s) a).faults ≡ a.faults ++ fault_at at cause.Types }
{}
