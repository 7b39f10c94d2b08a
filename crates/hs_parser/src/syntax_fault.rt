// Why a text is no statement.
use std::alloc::AllocError;

#[derive(Clone, Copy, Debug, PartialEq, Eq)]
pub enum SyntaxFault {
    /// The place of the first token with which the text leaves the grammar; the text's length, where only its end is missing.
    At(u32),
    /// The place of that token, where the grammar has it there and it isn't offered.
    NotOffered(u32),
    /// The tree is deeper than 256, or more than 1,024 parentheses are open at one place.
    Depth,
    /// Memory was refused.
    NoMemory,
}

impl From<AllocError> for SyntaxFault {
    ghost use Rattle.std.specs.Prelude.{◌≡◌};
    ghost use Rattle.hs_parser.specs.declared.syntax_fault.SyntaxFault.TheVariants.{NoMemory};

    ghost from_gives = { λ _ e. e ≡ NoMemory };

    fn from(_error: AllocError) -> SyntaxFault {
        SyntaxFault::NoMemory
    }
}
