// Definitions of tables, constraints and indexes.
use crate::expression::Condition;
use crate::literal::Literal;
use crate::word::Identifier;
use sqlite_items::Items;

/// INT is INTEGER and NUMERIC is DECIMAL, whose precision is 38 and whose scale is 0 where they aren't written.
#[derive(Clone, Copy, Debug, PartialEq, Eq)]
pub enum DataType {
    SmallInt,
    Integer,
    BigInt,
    Decimal { precision: u8, scale: u8 },
    /// At most this many characters.
    Varchar(u16),
    Boolean,
    Date,
    Timestamp,
}

/// The literal behind DEFAULT, and its place, that of its sign where it has one.
#[derive(Drop)]
pub struct DefaultValue {
    pub at: u32,
    pub literal: Literal,
}

#[derive(Clone, Copy, Debug, PartialEq, Eq)]
pub enum ReferentialAction {
    NoAction,
    Restrict,
    Cascade,
    SetNull,
    SetDefault,
}

/// What stands from REFERENCES on. Of several actions of one kind the last one holds, and where none is written
/// it is NO ACTION.
#[derive(Drop)]
pub struct ForeignKey {
    pub parent: Identifier,
    /// Empty where no columns are written.
    pub parent_columns: Items<Identifier>,
    pub on_delete: ReferentialAction,
    pub on_update: ReferentialAction,
}

#[derive(Drop)]
pub enum ColumnRule {
    NotNull,
    PrimaryKey,
    Unique,
    Check(Condition),
    References(ForeignKey),
}

#[derive(Drop)]
pub struct ColumnConstraint {
    /// The place of its first byte.
    pub at: u32,
    pub name: Option<Identifier>,
    pub rule: ColumnRule,
}

/// It begins at its name.
#[derive(Drop)]
pub struct ColumnDefinition {
    pub name: Identifier,
    pub data_type: DataType,
    pub default: Option<DefaultValue>,
    pub constraints: Items<ColumnConstraint>,
}

#[derive(Drop)]
pub enum TableRule {
    PrimaryKey(Items<Identifier>),
    Unique(Items<Identifier>),
    Check(Condition),
    ForeignKey(Items<Identifier>, ForeignKey),
}

#[derive(Drop)]
pub struct TableConstraint {
    /// The place of its first byte.
    pub at: u32,
    pub name: Option<Identifier>,
    pub rule: TableRule,
}

#[derive(Drop)]
pub enum TableElement {
    Column(ColumnDefinition),
    Constraint(TableConstraint),
}

#[derive(Clone, Copy, Debug, PartialEq, Eq)]
pub enum Storage {
    Memory,
    Cached,
}

#[derive(Drop)]
pub struct CreateTable {
    /// MEMORY where none is written.
    pub storage: Storage,
    pub name: Identifier,
    pub elements: Items<TableElement>,
}

#[derive(Drop)]
pub struct CreateIndex {
    pub name: Identifier,
    pub table: Identifier,
    pub columns: Items<Identifier>,
}

#[derive(Drop)]
pub enum AlterAction {
    AddColumn(ColumnDefinition),
    AddConstraint(TableConstraint),
    DropConstraint(Identifier),
}

#[derive(Drop)]
pub struct AlterTable {
    pub table: Identifier,
    pub action: AlterAction,
}
