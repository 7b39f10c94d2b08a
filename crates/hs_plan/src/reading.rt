// Literal texts that are read as dates or timestamps.

/// What a literal text (`literal`) means that is read as a date or a timestamp, since it is compared with one or assigned to
/// one.
#[derive(Clone, Copy)]
pub enum Reading {
    /// A date, by its day.
    Day(i32),
    /// A timestamp, in microseconds.
    Micros(i64),
    /// No date: its evaluation is the fault `bad date`.
    BadDate,
    /// No timestamp: its evaluation is the fault `bad date`.
    BadTimestamp,
}
