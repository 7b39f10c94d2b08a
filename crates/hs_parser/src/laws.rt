// What holds of the building of trees and needs no call.
ghost use Rattle.std.specs.Prelude.{◌≡◌, ◌+◌, ◌++◌, ℕ, List, length};
ghost use Rattle.hs_builder.specs.Steps.{and_then};
ghost use Rattle.hs_builder.specs.declared.part.Parts.{Parts};
ghost use Rattle.hs_grammar.specs.Grammar.{tokens_of};
ghost use Rattle.hs_grammar.specs.declared.types.Item.{Item};
ghost use Rattle.hs_lexer.specs.declared.token.Token.{Token};
ghost use Rattle.hs_parser.specs.Building.{built};
ghost use Rattle.hs_parser.specs.Sentences.{NoneMissing};

/// No step of a sentence's building finds a part missing, and none loses one: the sentence's tree is there, and a tree on the way was
/// deeper than 256 exactly where it is. Nothing is done.
pub fn no_part_is_missing()
    ensures { NoneMissing }
{}

/// Items build one behind another: what some items build is built on by those behind them. Nothing is done.
pub fn items_build_one_behind_another()
    ensures { (text : List ℕ) (tokens : List Token) (taken : ℕ) (v w : List Item) (p : Parts) → built text tokens taken (v ++ w) p ≡ and_then (built text tokens taken v p) (built text tokens (taken + length (tokens_of v)) w) }
{}
