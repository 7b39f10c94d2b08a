//! Laws of the clauses of a SELECT.
ghost use Rattle.std.specs.Prelude.{◌≡◌, ◌↔◌, ◌≤◌, true, List, [], ◌∷◌, ◌++◌, map, Some, Ok, Err, Contains, AllPairs};
ghost use Rattle.std.specs.List.{flat_map};
ghost use Rattle.std.specs.List.Sorted.{IsPermutation, IsStrictlySortedBy};
ghost use Rattle.std.specs.declared.cmp.Ordering.TheVariants.{Equal, Less};
ghost use Rattle.hs_values.specs.declared.fault.EvalFault.{EvalFault};
ghost use Rattle.hs_values.specs.declared.value.Value.{Value};
ghost use Rattle.hs_values.specs.declared.value.Value.TheVariants as v;
ghost use Rattle.hs_values.specs.Fault.{number_of};
ghost use Rattle.hs_values.specs.Order.{row_order_of};
ghost use Rattle.hs_rel.specs.Bags.{is_among};
ghost use Rattle.hs_rel.specs.Join.{padded, product, unmatched};
ghost use Rattle.hs_rel.specs.Selection.{selected};
ghost use Rattle.hs_expression.specs.Surroundings.{Answered, Rows, Surroundings, Valued};
ghost use Rattle.hs_answer.specs.From.{from_rows, inner_to, left_to};
ghost use Rattle.hs_answer.specs.Groups.{groups_by, places_of};
ghost use Rattle.hs_answer.specs.Layers.{Line, Sourced};
ghost use Rattle.hs_answer.specs.Places.{over_group, over_row, value_over, values_at};
ghost use Rattle.hs_answer.specs.Selects.{having_true, line_at, one_of_each, rows_of, where_true};

/// WHERE keeps exactly the rows for which its condition is TRUE, neither those for which it is FALSE nor those for which it
/// is unknown. Where it has a fault for some row, that is the answer, and no row has a lesser one.
pub fn where_keeps_exactly_the_true_rows()
    ensures rows { (outer rows kept : Rows) (condition : Valued) → where_true outer (Some condition) rows ≡ Ok kept → (row : List Value) → Contains kept row ↔ (Contains rows row × (condition (over_row outer row) ≡ Ok (v.Bool true))) }
    ensures fault { (outer rows : Rows) (condition : Valued) (fault : EvalFault) → where_true outer (Some condition) rows ≡ Err fault → (row : List Value) × Contains rows row × (condition (over_row outer row) ≡ Err fault) }
    ensures least { (outer rows : Rows) (condition : Valued) (fault : EvalFault) → where_true outer (Some condition) rows ≡ Err fault → (row : List Value) (other : EvalFault) → Contains rows row → condition (over_row outer row) ≡ Err other → number_of fault ≤ number_of other }
{}

/// HAVING does the same with groups.
pub fn having_keeps_exactly_the_true_groups()
    ensures groups { (condition : Valued) (places kept : List Surroundings) → having_true (Some condition) places ≡ Ok kept → (place : Surroundings) → Contains kept place ↔ (Contains places place × (condition place ≡ Ok (v.Bool true))) }
    ensures fault { (condition : Valued) (places : List Surroundings) (fault : EvalFault) → having_true (Some condition) places ≡ Err fault → (place : Surroundings) × Contains places place × (condition place ≡ Err fault) }
    ensures least { (condition : Valued) (places : List Surroundings) (fault : EvalFault) → having_true (Some condition) places ≡ Err fault → (place : Surroundings) (other : EvalFault) → Contains places place → condition place ≡ Err other → number_of fault ≤ number_of other }
{}

/// A join is the selection of a product by ON. A left join has the rows of the join and, with NULLs behind them, exactly
/// the left rows that are in none of its pairs.
pub fn a_join_selects_from_a_product()
    ensures join { (source : Sourced) (on : Valued) (outer left right : Rows) → source.rows outer ≡ Ok right → inner_to source on outer left ≡ selected (value_over on outer) (product left right) }
    ensures left_join { (source : Sourced) (on : Valued) (outer left right pairs : Rows) → source.rows outer ≡ Ok right → inner_to source on outer left ≡ Ok pairs → (rows : Rows) × (left_to source on outer left ≡ Ok rows) × IsPermutation (pairs ++ map (padded source.width) (unmatched (value_over on outer) left right)) rows }
    ensures unmatched { (source : Sourced) (on : Valued) (outer left right : Rows) (one : List Value) → Contains (unmatched (value_over on outer) left right) one ↔ (Contains left one × ((other : List Value) → Contains right other → on (over_row outer (one ++ other)) ≡ Ok (v.Bool true) → ⊥)) }
{}

/// The rows of FROM with one element are that element's, and with two their product.
pub fn from_is_a_product()
    ensures one { (outer : Rows) (element : Answered) → from_rows outer (element ∷ []) ≡ element outer }
    ensures two { (outer left right : Rows) (element other : Answered) → element outer ≡ Ok left → other outer ≡ Ok right → from_rows outer (element ∷ other ∷ []) ≡ Ok (product left right) }
{}

/// The groups have each row once. The rows of one group have equal values of GROUP BY, where NULLs are equal, and those of
/// two groups have other ones. Without GROUP BY all rows are one group, also where there are none.
pub fn the_groups_part_the_rows()
    ensures same { (outer rows : Rows) (group_by : List Valued) (groups : List Rows) → groups_by outer group_by rows ≡ Ok groups → IsPermutation rows (flat_map (λ group. group) groups) }
    ensures alike { (outer rows : Rows) (group_by : List Valued) (groups : List Rows) → groups_by outer group_by rows ≡ Ok groups → (group : Rows) → Contains groups group → (one other keys others : List Value) → Contains group one → Contains group other → values_at group_by (over_row outer one) ≡ Ok keys → values_at group_by (over_row outer other) ≡ Ok others → row_order_of keys others ≡ Equal }
    ensures apart { (outer rows : Rows) (key : Valued) (more : List Valued) (groups : List Rows) → groups_by outer (key ∷ more) rows ≡ Ok groups → AllPairs (λ group later. (one other keys others : List Value) → Contains group one → Contains later other → values_at (key ∷ more) (over_row outer one) ≡ Ok keys → values_at (key ∷ more) (over_row outer other) ≡ Ok others → row_order_of keys others ≡ Less) groups }
    ensures all { (outer rows : Rows) → groups_by outer [] rows ≡ Ok (rows ∷ []) }
    ensures none { (outer : Rows) → places_of true outer [] [] ≡ Ok (over_group outer [] ∷ []) }
{}

/// There is one row for each row of FROM, or for each group, and it has what the items give there. DISTINCT keeps one of
/// equal rows: each row is equal to one that it keeps, it keeps no others, and no two that it keeps are equal.
pub fn items_and_distinct()
    ensures items { (items : List Valued) (places : List Surroundings) (lines : List Line) → map (line_at items) places ≡ map Ok lines → map (values_at items) places ≡ map Ok (rows_of lines) }
    ensures each { (outer : Rows) (lines : List Line) (row : List Value) → is_among (rows_of (one_of_each true outer lines)) row ≡ is_among (rows_of lines) row }
    ensures found { (outer : Rows) (lines : List Line) (row : List Value) → Contains (rows_of (one_of_each true outer lines)) row → Contains (rows_of lines) row }
    ensures once { (outer : Rows) (lines : List Line) → IsStrictlySortedBy row_order_of (rows_of (one_of_each true outer lines)) }
{}
