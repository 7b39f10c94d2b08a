//! What copies answer, as a law on a function that does nothing. Proofs of other crates cite it from `Answering.antt` in
//! `proofs/`.
ghost use Rattle.std.specs.Prelude.{◌≡◌};
ghost use Rattle.hs_plan.specs.declared.expression.Expr.{Expr};
ghost use Rattle.hs_plan.specs.declared.query.Query.{Query};
ghost use Rattle.hs_plan.specs.Named.{named, named_in_query};
ghost use Rattle.hs_changes.specs.Settings.{Maps};
ghost use Rattle.hs_answer.specs.Answer.{query_in, value_in};
ghost use Rattle.hs_copied.specs.declared.table_copies.TableCopies.{TableCopies};
ghost use Rattle.hs_copied.specs.Copies.{Stand, maps_of};

/// Where the rows of each table that a query names are copied, it has the same answer over the copies, whatever rows stand
/// around it: the same rows in the same order, or the same fault. So do expressions.
pub fn copies_answer_as_the_tables()
    ensures query { (tables : Maps) (query : Query) (copies : TableCopies) → Stand tables (named_in_query query) copies → query_in (maps_of copies) query ≡ query_in tables query }
    ensures expression { (tables : Maps) (e : Expr) (copies : TableCopies) → Stand tables (named e) copies → value_in (maps_of copies) e ≡ value_in tables e }
{}
