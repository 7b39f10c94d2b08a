//! Laws of the tokens of a text, each on a function that does nothing.
ghost use Rattle.std.specs.Prelude.{◌≡◌, [], ◌∷◌, ◌++◌, ℕ, List, Ok, Err, length};
ghost use Rattle.std.specs.Str.{IsUtf8};
ghost use Rattle.hs_lexer.specs.declared.token.Token.{Token};
ghost use Rattle.hs_lexer.specs.declared.token.TokenKind.TheVariants as kinds;
ghost use Rattle.hs_lexer.specs.declared.fault.LexFault.{LexFault};
ghost use Rattle.hs_lexer.specs.Pieces.{doubled};
ghost use Rattle.hs_lexer.specs.Content.{undoubled, unescaped, name_of, text_of, AreEscaped, IsWritten};
ghost use Rattle.hs_lexer.specs.Reading.{tokens_of};
ghost use Rattle.hs_lexer.specs.Tokens.{AreTokens, IsFault, AreInOrder, AreSlices, AreSound};

/// `tokens_of` gives tokens exactly where they are those of the text, and a fault exactly where it is the first.
pub fn tokens_are_the_longest()
    ensures found { (text : List ℕ) (tokens : List Token) → tokens_of text ≡ Ok tokens → AreTokens 0 text tokens }
    ensures only { (text : List ℕ) (tokens : List Token) → AreTokens 0 text tokens → tokens_of text ≡ Ok tokens }
    ensures fault { (text : List ℕ) (fault : LexFault) → tokens_of text ≡ Err fault → IsFault 0 text fault }
    ensures only_fault { (text : List ℕ) (fault : LexFault) → IsFault 0 text fault → tokens_of text ≡ Err fault }
{}

/// A text has one list of tokens or one first fault, and never both.
pub fn tokens_are_unique()
    ensures tokens { (text : List ℕ) (tokens others : List Token) → AreTokens 0 text tokens → AreTokens 0 text others → tokens ≡ others }
    ensures fault { (text : List ℕ) (fault other : LexFault) → IsFault 0 text fault → IsFault 0 text other → fault ≡ other }
    ensures either { (text : List ℕ) (tokens : List Token) (fault : LexFault) → AreTokens 0 text tokens → IsFault 0 text fault → ⊥ }
{}

/// The tokens of a text are slices of it, in order.
pub fn tokens_are_slices_in_order()
    ensures order { (text : List ℕ) (tokens : List Token) → tokens_of text ≡ Ok tokens → AreInOrder 0 (length text) tokens }
    ensures slices { (text : List ℕ) (tokens : List Token) → IsUtf8 text → tokens_of text ≡ Ok tokens → AreSlices text tokens }
{}

/// What stands in quotes is read as it was before its quotes were doubled, and escapes as what they mean.
pub fn quotes_and_escapes_are_undone()
    ensures quotes { (quote : ℕ) (bytes : List ℕ) → undoubled quote (doubled quote bytes) ≡ bytes }
    ensures escapes { (bytes means : List ℕ) → AreEscaped bytes means → unescaped 0 bytes ≡ means }
{}

/// A quoted name is the name between its quotes, and a text is what stands between its quotes, or what that means.
pub fn tokens_say_what_their_quotes_hold()
    ensures quoted { (text : List ℕ) (token : Token) (name : List ℕ) → token.kind ≡ kinds.Quoted → IsWritten text token (34 ∷ (doubled 34 name ++ 34 ∷ [])) → name_of text token ≡ name }
    ensures text { (text : List ℕ) (token : Token) (inside : List ℕ) → token.kind ≡ kinds.Text → IsWritten text token (39 ∷ (doubled 39 inside ++ 39 ∷ [])) → text_of text token ≡ inside }
    ensures unicode { (text : List ℕ) (token : Token) (inside means : List ℕ) → token.kind ≡ kinds.UnicodeText → IsWritten text token (85 ∷ 38 ∷ 39 ∷ (doubled 39 inside ++ 39 ∷ [])) → AreEscaped inside means → text_of text token ≡ means }
{}

/// Names in the tokens of a text have from 1 to 128 bytes and no control character, and numbers at most 38 digits.
pub fn tokens_are_sound()
    ensures { (text : List ℕ) (tokens : List Token) → IsUtf8 text → tokens_of text ≡ Ok tokens → AreSound text tokens }
{}
