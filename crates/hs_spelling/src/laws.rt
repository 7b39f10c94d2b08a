//! Laws of what tokens spell, each on a function that does nothing.
ghost use Rattle.std.specs.Prelude.{ℕ, List, IfOk, Result};
ghost use Rattle.hs_ast.specs.declared.statement.Stmt.{Stmt};
ghost use Rattle.hs_grammar.specs.declared.types.Item.{Item};
ghost use Rattle.hs_lexer.specs.declared.token.Token.{Token};
ghost use Rattle.hs_parser.specs.Building.{tree_of};
ghost use Rattle.hs_parser.specs.Parsed.{IsTree, Read};
ghost use Rattle.hs_parser.specs.declared.syntax_fault.SyntaxFault.{SyntaxFault};
ghost use Rattle.hs_spelling.specs.Statements.{IsSpelledBy};
ghost use Rattle.hs_syntax.specs.Classes.{classes_of};
ghost use Rattle.hs_syntax.specs.Literal.{IsBuiltBy};

/// The tree that `statement` answers is spelled by the tokens that it was called with: whatever meets its contract's `Read` does.
/// Nothing is done.
pub fn statements_are_spelled_by_their_tokens()
    ensures { (text : List ℕ) (tokens : List Token) (result : Result Stmt SyntaxFault) → Read text tokens result → IfOk result (λ tree. IsSpelledBy text tree tokens) }
{}

/// What the literal grammar's steps build of some tokens, by whichever reading and however deep, is spelled by these tokens.
/// Nothing is done.
pub fn readings_build_what_they_spell()
    ensures { (text : List ℕ) (tokens : List Token) (items : List Item) (tree : Stmt) → IsBuiltBy (classes_of text tokens) items → IsTree (tree_of text tokens items) tree → IsSpelledBy text tree tokens }
{}
