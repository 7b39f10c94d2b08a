// What the statements of sessions and transactions name.

#[derive(Clone, Copy, Debug, PartialEq, Eq)]
pub enum Isolation {
    ReadCommitted,
    RepeatableRead,
    Serializable,
}

#[derive(Clone, Copy, Debug, PartialEq, Eq)]
pub enum Access {
    ReadOnly,
    ReadWrite,
}

/// The level and the access that are written, of each the last one.
#[derive(Clone, Copy, Debug, PartialEq, Eq)]
pub struct Modes {
    pub isolation: Option<Isolation>,
    pub access: Option<Access>,
}

#[derive(Clone, Copy, Debug, PartialEq, Eq)]
pub enum TransactionControl {
    Locks,
    MvLocks,
    Mvcc,
}
