// Why an item is refused.
use hs_values::Name;

/// Why an item is refused. It then changes no table.
#[derive(Debug, Drop)]
pub enum Refusal {
    /// The entry has more than 65,536 bytes.
    TooLong,
    /// The entry has no session's name and directly a colon, isn't UTF-8, or the input ends before its `;`.
    Entry,
    /// The entry's session would be the 65th.
    Sessions,
    /// It is no statement of the program, a row of another length than its table's, or a table too many.
    NotBuilt,
    /// No table of this name is there.
    NoSuch(Name),
    /// A table or a column of this name is there.
    Exists(Name),
}
