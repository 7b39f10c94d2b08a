// Literals.
use crate::word::Word;

/// A number by its digits: `units` divided by ten `scale` times. The scale is the number of digits behind the
/// point, so 1.50 and 1.5 are two numbers here. Both have at most 38 digits.
#[derive(Clone, Copy, Debug, PartialEq, Eq)]
pub struct Number {
    pub units: i128,
    pub scale: u8,
}

#[derive(Debug, Drop)]
pub enum Literal {
    Null,
    Boolean(bool),
    /// Below zero only behind DEFAULT.
    Number(Number),
    Text(Word),
    /// The text behind DATE, which need be no date.
    Date(Word),
    /// The text behind TIMESTAMP, which need be no timestamp.
    Timestamp(Word),
}
