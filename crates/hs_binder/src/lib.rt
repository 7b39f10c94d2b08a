//! Binding: what a statement means over a catalogue.
#![tactic(auto)]

ghost use Rattle.hs_statements.specs.Statements.{AnswersStatement};

use hs_ast::Stmt;
use hs_plan::{BindFault, Plan};
use hs_resolve::Resolver;
use hs_schema::Catalog;
use hs_statements::bind_statement;

/// What a statement means over a catalogue, or its least fault: the first by class, and in a class the first by place. The
/// classes in their order are `NoSuch` of tables and then of columns, constraints and indexes, `Exists`, `Ambiguous`,
/// `Types`, `Count` and `Limit`. It takes its memory where the catalogue does; want of it is `NoMemory`.
pub fn bind(catalog: &Catalog, statement: &Stmt) -> Result<Plan, BindFault>
    ensures { AnswersStatement catalog.now statement.now result }
{
    bind_statement(&Resolver, catalog, statement, catalog.alloc())
}
