// Numbers that name things. Each orders as its number does.

/// The number of a row in its table. It is never given again.
#[derive(Clone, Copy, Debug, PartialEq, Eq, PartialOrd, Ord)]
pub struct RowNo(pub u64);

/// The number of a commit. The first of a database is 1, and 0 stands for the database before it.
#[derive(Clone, Copy, Debug, PartialEq, Eq, PartialOrd, Ord)]
pub struct CommitNo(pub u64);

/// The number of a table. It is never given again.
#[derive(Clone, Copy, Debug, PartialEq, Eq, PartialOrd, Ord)]
pub struct TableNo(pub u64);

/// The number of a constraint or an index. It is never given again.
#[derive(Clone, Copy, Debug, PartialEq, Eq, PartialOrd, Ord)]
pub struct ConstraintNo(pub u64);

/// The place of a page in its file, counted in pages from 0.
#[derive(Clone, Copy, Debug, PartialEq, Eq, PartialOrd, Ord)]
pub struct PageNo(pub u64);

/// The number of a session, from 1 to 64, in the order in which their names first came.
#[derive(Clone, Copy, Debug, PartialEq, Eq, PartialOrd, Ord)]
pub struct SessionNo(pub u32);

/// A row by its table and its number there. Names order by the table and then by the row.
#[derive(Clone, Copy, Debug, PartialEq, Eq, PartialOrd, Ord)]
pub struct RowName {
    pub table: TableNo,
    pub row: RowNo,
}
