//! Of which tables an answer depends.
ghost use Rattle.std.specs.Prelude.{◌≡◌, true, List};
ghost use Rattle.hs_plan.specs.declared.expression.Expr.{Expr};
ghost use Rattle.hs_plan.specs.declared.query.Query.{Query};
ghost use Rattle.hs_plan.specs.Named.{named, named_in_query};
ghost use Rattle.hs_changes.specs.Settings.{Maps};
ghost use Rattle.hs_values.specs.declared.value.Value.{Value};
ghost use Rattle.hs_expression.specs.Expression.{value_of};
ghost use Rattle.hs_expression.specs.Plain.{is_plain};
ghost use Rattle.hs_expression.specs.Surroundings.{Rows, Surroundings};
ghost use Rattle.hs_answer.specs.Answer.{answer, evaluated, query_in, value_in};
ghost use Rattle.hs_answer.specs.Frame.{Agree};

/// Where two states of the tables have the same rows of each table that a query names, it answers the same in both: the
/// same rows in the same order, or the same fault. So do its subqueries, whatever rows stand around them, and expressions.
pub fn an_answer_depends_on_the_named_tables_alone()
    ensures query { (a b : Maps) (query : Query) → Agree a b (named_in_query query) → answer a query ≡ answer b query }
    ensures subquery { (a b : Maps) (query : Query) (outer : Rows) → Agree a b (named_in_query query) → query_in a query outer ≡ query_in b query outer }
    ensures expression { (a b : Maps) (e : Expr) (row : List Value) → Agree a b (named e) → evaluated a e row ≡ evaluated b e row }
{}

/// An expression without subqueries gives the same over all tables, and what it gives alone.
pub fn an_expression_without_subqueries_reads_no_table()
    ensures value { (tables : Maps) (e : Expr) (s : Surroundings) → is_plain e ≡ true → value_in tables e s ≡ value_of e s }
{}
