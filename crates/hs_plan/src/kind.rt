// Kinds of values.

/// A type as the rules of types see it: what is known of an expression's values before it is evaluated: each is NULL or of this kind. All whole
/// numbers are reckoned at 64 bits, and no kind says how many digits or characters a value has.
#[derive(Clone, Copy, Debug, PartialEq, Eq)]
pub enum Kind {
    /// NULL alone, which goes with every kind.
    Null,
    Whole,
    /// Decimals of this scale, at most 38.
    Decimal(u8),
    /// Decimals of a scale above 38, which no value has: an operation that would give one is the fault `range`.
    TooWide,
    Text,
    Boolean,
    Date,
    Timestamp,
}
