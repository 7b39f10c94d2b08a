// Which words may be no names.
ghost use Rattle.std.specs.Prelude.{◌≡◌, ◌↔◌, false, nat_eq};
ghost use Rattle.std.specs.List.{list_any};
ghost use Rattle.hs_syntax.specs.Reserved as spec;
ghost use Rattle.hs_syntax.specs.Words.{name_classes};

use crate::class::word_class;
use crate::words::NAMES;

/// Whether a class is one of those of the words that are names.
#[tactic(auto, unfolding(crate::specs::Words::name_classes))]
fn is_name_class(class: u8) -> bool
    ensures { result ≡ list_any (λ c. nat_eq c class) name_classes }
{
    NAMES.iter().any(|name| *name == class)
}

/// Whether a word, given by its bytes, is one of the grammar's reserved words, without regard to case. A word of a letter or `_`
/// and then letters, digits and `_` is a name exactly where it isn't reserved, and else a name has to stand in double quotes.
pub fn is_reserved(word: &[u8]) -> bool
    ensures value { result ≡ spec.is_reserved word.now }
    ensures name { (result ≡ false) ↔ spec.IsName word.now }
{
    !is_name_class(word_class(word))
}
