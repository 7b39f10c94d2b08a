//! Laws of VALUES, of the set operations, and of the order of an answer.
ghost use Rattle.std.specs.Prelude.{◌≡◌, ◌≤◌, ◌&&◌, ◌||◌, not, List, ◌++◌, length, map, Result, Ok, Err, Contains};
ghost use Rattle.std.specs.List.Sorted.{IsPermutation};
ghost use Rattle.hs_ast.specs.declared.query.SetOperator.{SetOperator};
ghost use Rattle.hs_ast.specs.declared.query.SetOperator.TheVariants as o;
ghost use Rattle.hs_plan.specs.declared.kind.Kind.{Kind};
ghost use Rattle.hs_values.specs.declared.fault.EvalFault.{EvalFault};
ghost use Rattle.hs_values.specs.declared.value.Value.{Value};
ghost use Rattle.hs_values.specs.Fault.{number_of};
ghost use Rattle.hs_rel.specs.Bags.{is_among};
ghost use Rattle.hs_expression.specs.Outcomes.{all_or_least};
ghost use Rattle.hs_expression.specs.Surroundings.{Rows, Valued};
ghost use Rattle.hs_answer.specs.Bodies.{combined, side_rows, sides_combined, values_given, values_row};
ghost use Rattle.hs_answer.specs.Groups.{without_keys};
ghost use Rattle.hs_answer.specs.Layers.{Bodied, Line, QueryLayer};
ghost use Rattle.hs_answer.specs.Order.{limited, of_query};
ghost use Rattle.hs_answer.specs.Selects.{rows_of};
ghost use Rattle.hs_answer_laws.specs.Ordered.{IsInOrder, TiesAreIdentical};

/// Where the rows of a part have no fault, all of them are given. Else the answer is a fault that one of them has, and none
/// has a lesser one.
pub fn the_least_fault_of_a_part_counts()
    ensures all { (outcomes : List (Result (List Value) EvalFault)) (rows : Rows) → all_or_least outcomes ≡ Ok rows → outcomes ≡ map Ok rows }
    ensures found { (outcomes : List (Result (List Value) EvalFault)) (fault : EvalFault) → all_or_least outcomes ≡ Err fault → Contains outcomes (Err fault) }
    ensures least { (outcomes : List (Result (List Value) EvalFault)) (fault other : EvalFault) → all_or_least outcomes ≡ Err fault → Contains outcomes (Err other) → number_of fault ≤ number_of other }
{}

/// VALUES has its rows as they are written.
pub fn values_are_as_written()
    ensures { (kinds : List Kind) (rows : List (List Valued)) (outer : Rows) (lines : List Line) → values_given kinds rows outer ≡ Ok lines → map (values_row kinds outer) rows ≡ map Ok (rows_of lines) }
{}

/// UNION ALL adds the bags of its sides. UNION has the rows of either side, INTERSECT those of both, EXCEPT those of the
/// left side alone.
pub fn set_operations_combine_their_sides()
    ensures sides { (operator : SetOperator) (kinds : List Kind) (left right : Bodied) (outer a b : Rows) (above below : List Line) → left outer ≡ Ok above → right outer ≡ Ok below → side_rows kinds above ≡ Ok a → side_rows kinds below ≡ Ok b → (lines : List Line) × (sides_combined operator kinds left right outer ≡ Ok lines) × (rows_of lines ≡ combined operator a b) }
    ensures union_all { (a b : Rows) → combined o.UnionAll a b ≡ a ++ b }
    ensures union { (a b : Rows) (row : List Value) → is_among (combined o.Union a b) row ≡ (is_among a row || is_among b row) }
    ensures intersection { (a b : Rows) (row : List Value) → is_among (combined o.Intersect a b) row ≡ (is_among a row && is_among b row) }
    ensures difference { (a b : Rows) (row : List Value) → is_among (combined o.Except a b) row ≡ (is_among a row && not (is_among b row)) }
{}

/// An answer is what LIMIT leaves of a list. That list has the rows of the body, each as often as there, and stands in the
/// order of the keys and then of all output columns, ascending; NULL is first, also with DESC.
pub fn an_answer_stands_in_the_order_of_its_keys()
    ensures { (x : QueryLayer) (outer answer : Rows) → of_query x outer ≡ Ok answer → (lines : List Line) × (sorted : Rows) × (x.body outer ≡ Ok lines) × IsInOrder x.order_by lines sorted × (answer ≡ limited x.limit (without_keys (length x.order_by) sorted)) }
{}

/// In whatever order a body gives its rows, the answer is the same, where rows that tie are identical. So a body may read
/// rows in another order, and pair them in another.
pub fn a_bag_has_one_answer()
    ensures { (x : QueryLayer) (body : Bodied) (outer : Rows) (lines others : List Line) → x.body outer ≡ Ok lines → body outer ≡ Ok others → IsPermutation lines others → TiesAreIdentical x.order_by lines → of_query x outer ≡ of_query (record x { body = body }) outer }
{}
