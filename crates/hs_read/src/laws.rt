//! Laws of the statements of texts, each on a function that does nothing.
ghost use Rattle.std.specs.Prelude.{◌≡◌, ℕ, List, Result};
ghost use Rattle.hs_ast.specs.declared.statement.Stmt.{Stmt};
ghost use Rattle.hs_read.specs.Read.{IsReadAs, Refusal, statement_in};

/// `statement_in` gives the statement that a text is by the literal grammar, or why it is none; and a text is one
/// statement or has one such reason.
pub fn a_text_is_one_statement_or_none()
    ensures read { (text : List ℕ) → IsReadAs text (statement_in text) }
    ensures only { (text : List ℕ) (answer : Result Stmt Refusal) → IsReadAs text answer → answer ≡ statement_in text }
{}
