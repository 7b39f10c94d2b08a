// What a grammar is made of, and what is answered.
use std::alloc::AllocError;

/// The number of classes of tokens. Class 0 is no token: it stands for the end.
pub const CLASSES: usize = 256;

/// What stands in a production.
#[derive(Clone, Copy, Debug, PartialEq, Eq)]
pub enum Symbol {
    /// A token of this class.
    Take(u8),
    /// A token of a class from the first to the second, and that class is the state from here on.
    TakeKeep(u8, u8),
    /// A token of the first class, or of one behind it up to the second that isn't above the state.
    TakeUpTo(u8, u8),
    /// A token of a class from the first to the second that stands in the grammar but isn't offered. It stands only
    /// at the beginning of a production.
    Refuse(u8, u8),
    /// A production of this rule.
    Rule(u8),
    /// A production of this rule, the next one or the one after that, as the state is 0, 1 or more.
    Turn(u8),
    /// No token; a mark for what builds the tree.
    Mark(u8),
    /// No token; the state is this one from here on.
    Keep(u8),
}

/// What a derivation gives: tokens by their classes, with marks between them.
#[derive(Clone, Copy, Debug, PartialEq, Eq)]
pub enum Item {
    Token(u8),
    Mark(u8),
}

/// A rule, and the part of the symbols that is its right side, from its last symbol to its first.
#[derive(Clone, Copy, Debug, PartialEq, Eq)]
pub struct Production {
    pub rule: u8,
    pub from: u16,
    pub to: u16,
}

/// A token of this class that stands directly before one of class `before` is looked up in the column `seen`.
#[derive(Clone, Copy, Debug, PartialEq, Eq)]
pub struct View {
    pub class: u8,
    pub before: u8,
    pub seen: u8,
}

/// A grammar, and by rule and column the production with which a rule goes on, 0 for none. A column is a class, or the
/// `seen` of a view. The first rule is 0. Production 0 counts for nothing.
#[derive(Clone, Copy)]
pub struct Tables<'a> {
    pub rows: &'a [[u16; CLASSES]],
    pub productions: &'a [Production],
    pub symbols: &'a [Symbol],
    pub views: &'a [View],
}

#[derive(Clone, Copy, Debug, PartialEq, Eq)]
pub enum Fault {
    /// The first token, by its index, with which no sentence begins any more; the number of tokens, where only the end is missing.
    At(usize),
    /// The same, where that token is one that the grammar has there but doesn't offer.
    NotOffered(usize),
    /// Memory was refused.
    NoMemory,
}

impl From<AllocError> for Fault {
    ghost use Rattle.std.specs.Prelude.{◌≡◌};
    ghost use Rattle.hs_grammar.specs.declared.types.Fault.TheVariants.{NoMemory};

    ghost from_gives = { λ _ e. e ≡ NoMemory };

    fn from(_error: AllocError) -> Fault {
        Fault::NoMemory
    }
}
