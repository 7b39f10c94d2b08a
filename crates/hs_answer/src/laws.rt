//! Laws of the order of a query's parts, each on a function that does nothing.
ghost use Rattle.std.specs.Prelude.{◌≡◌, List, map, Ok, Err};
ghost use Rattle.hs_ast.specs.declared.query.SetOperator.{SetOperator};
ghost use Rattle.hs_plan.specs.declared.kind.Kind.{Kind};
ghost use Rattle.hs_values.specs.declared.fault.EvalFault.{EvalFault};
ghost use Rattle.hs_expression.specs.Outcomes.{all_or_least};
ghost use Rattle.hs_expression.specs.Surroundings.{Rows, Surroundings};
ghost use Rattle.hs_answer.specs.Bodies.{sides_combined};
ghost use Rattle.hs_answer.specs.From.{from_rows};
ghost use Rattle.hs_answer.specs.Groups.{places_of};
ghost use Rattle.hs_answer.specs.Layers.{Bodied, Line, QueryLayer, SelectLayer};
ghost use Rattle.hs_answer.specs.Order.{behind_sort_keys, of_query};
ghost use Rattle.hs_answer.specs.Selects.{having_true, line_at, of_select, where_true};

/// A SELECT has the fault of its FROM; where FROM has none, that of WHERE; then that of GROUP BY, that of HAVING, and
/// that of the items. No later part is asked.
pub fn the_first_part_with_a_fault_gives_it()
    ensures from { (x : SelectLayer) (outer : Rows) (fault : EvalFault) → from_rows outer x.from ≡ Err fault → of_select x outer ≡ Err fault }
    ensures condition { (x : SelectLayer) (outer all : Rows) (fault : EvalFault) → from_rows outer x.from ≡ Ok all → where_true outer x.filter all ≡ Err fault → of_select x outer ≡ Err fault }
    ensures groups { (x : SelectLayer) (outer all rows : Rows) (fault : EvalFault) → from_rows outer x.from ≡ Ok all → where_true outer x.filter all ≡ Ok rows → places_of x.grouped outer x.group_by rows ≡ Err fault → of_select x outer ≡ Err fault }
    ensures having { (x : SelectLayer) (outer all rows : Rows) (places : List Surroundings) (fault : EvalFault) → from_rows outer x.from ≡ Ok all → where_true outer x.filter all ≡ Ok rows → places_of x.grouped outer x.group_by rows ≡ Ok places → having_true x.having places ≡ Err fault → of_select x outer ≡ Err fault }
    ensures items { (x : SelectLayer) (outer all rows : Rows) (places kept : List Surroundings) (fault : EvalFault) → from_rows outer x.from ≡ Ok all → where_true outer x.filter all ≡ Ok rows → places_of x.grouped outer x.group_by rows ≡ Ok places → having_true x.having places ≡ Ok kept → all_or_least (map (line_at x.items) kept) ≡ Err fault → of_select x outer ≡ Err fault }
{}

/// Of a set operation the left side's fault comes before the right one's, and the keys of ORDER BY come behind the whole
/// body.
pub fn the_left_side_and_the_body_come_first()
    ensures left { (operator : SetOperator) (kinds : List Kind) (left right : Bodied) (outer : Rows) (fault : EvalFault) → left outer ≡ Err fault → sides_combined operator kinds left right outer ≡ Err fault }
    ensures right { (operator : SetOperator) (kinds : List Kind) (left right : Bodied) (outer : Rows) (lines : List Line) (fault : EvalFault) → left outer ≡ Ok lines → right outer ≡ Err fault → sides_combined operator kinds left right outer ≡ Err fault }
    ensures body { (x : QueryLayer) (outer : Rows) (fault : EvalFault) → x.body outer ≡ Err fault → of_query x outer ≡ Err fault }
    ensures keys { (x : QueryLayer) (outer : Rows) (lines : List Line) (fault : EvalFault) → x.body outer ≡ Ok lines → all_or_least (map (behind_sort_keys x.order_by) lines) ≡ Err fault → of_query x outer ≡ Err fault }
{}
