// Why a text has no tokens.
use std::alloc::AllocError;

/// Why a text has no tokens: the first place at which it can't go on, in bytes from its first.
#[derive(Clone, Copy, Debug, PartialEq, Eq)]
pub enum LexFault {
    /// A text, a quoted name or a `/*` comment is never closed. The place is that of its first byte.
    OpenQuote(u32),
    /// No token begins with this byte; or it is the first of a name that has a control character or not
    /// from 1 to 128 bytes; or a `\` of a text behind `U&` that begins no escape.
    BadChar(u32),
    /// A number of more than 38 digits begins here.
    WideNumber(u32),
    /// Memory is wanting, which says nothing about the text.
    NoMemory,
}

impl From<AllocError> for LexFault {
    ghost use Rattle.std.specs.Prelude.{◌≡◌};
    ghost use Rattle.hs_lexer.specs.declared.fault.LexFault.TheVariants.{NoMemory};

    ghost from_gives = { λ _ e. e ≡ NoMemory };

    fn from(_error: AllocError) -> LexFault {
        LexFault::NoMemory
    }
}
