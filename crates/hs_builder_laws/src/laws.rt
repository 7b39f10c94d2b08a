//! Laws of the steps, each on a function that does nothing.
ghost use Rattle.std.specs.Prelude.{ℕ, List};
ghost use Rattle.hs_lexer.specs.declared.token.Token.{Token};
ghost use Rattle.hs_builder.specs.declared.mark.Mark.{Mark};
ghost use Rattle.hs_builder.specs.declared.part.Parts.{Parts};
ghost use Rattle.hs_builder_laws.specs.LawfulParts.{AreLawful, IsFit, IsLawfulBehind};
ghost use Rattle.hs_builder.specs.MarkSteps.{step};

/// A step that reads lawful names and numbers, in the range that it needs, makes lawful parts of lawful ones.
pub fn steps_make_lawful_parts()
    ensures { (text : List ℕ) (token : Token) (here : ℕ) (m : Mark) (p : Parts) → IsFit text token m p → AreLawful p → IsLawfulBehind (step text token here m p) }
{}
