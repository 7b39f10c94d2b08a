//! Laws of definitions that are bound, each on a function that does nothing. Proofs of other crates cite them from
//! `Bound.antt` in `proofs/`.
ghost use Rattle.std.specs.Prelude.{◌≡◌, ℕ, List, Ok, true};
ghost use Rattle.hs_ast.specs.declared.statement.Stmt.{Stmt};
ghost use Rattle.hs_plan.specs.declared.definition.Definition.{Definition};
ghost use Rattle.hs_plan.specs.declared.plan.Plan.TheVariants as plan;
ghost use Rattle.hs_language.specs.Proper.{IsProper};
ghost use Rattle.hs_read.specs.Read.{IsReadAs};
ghost use Rattle.hs_reading.specs.Offered.{is_offered};
ghost use Rattle.hs_schema.specs.Catalogue.{Things};
ghost use Rattle.hs_schema.specs.Whole.{IsWhole};
ghost use Rattle.hs_statements.specs.Statements.{AnswersStatement};

/// The grammar offers the statement that a text is: a table is made in memory, and keys and indexes name one column at least.
pub fn read_statements_are_offered()
    ensures { (text : List ℕ) (statement : Stmt) → IsReadAs text (Ok statement) → is_offered statement ≡ true }
{}

/// A definition that is answered to an offered statement over a whole catalogue is proper there. The table that it names is there,
/// or is new where it makes one; the names of its constraints are new, and what it drops is there. A table is made in memory, and
/// the limits on tables are kept. The columns that it adds have new names and fitting defaults, and its keys and indexes are over
/// columns of their table. Each foreign key that it adds references a key, with columns of the same kinds. An index that it drops is
/// one, and a constraint is none.
pub fn bound_definitions_are_proper()
    ensures { (things : Things) (statement : Stmt) (definition : Definition) → IsWhole things → is_offered statement ≡ true → AnswersStatement things statement (Ok (plan.Define definition)) → IsProper things definition }
{}
