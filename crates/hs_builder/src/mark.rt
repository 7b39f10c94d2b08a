// The steps that build a tree, by the part of the language to which they belong.
use hs_ast::{
    Access, Aggregate, BinaryOperator, DataType, DateField, Function, IntervalUnit, Isolation,
    ReferentialAction, SetOperator, Sign, Storage, TransactionControl, TrimForm,
};

/// Words, names, numbers and texts. The token is the one that was taken last.
#[derive(Clone, Copy)]
pub enum LeafMark {
    /// The place of the token.
    Place,
    /// The place of the next token.
    Here,
    /// The name that the token is.
    Name,
    FirstName,
    NextName,
    Alias,
    NoAlias,
    /// Whether DISTINCT stands there, or NOT before a predicate.
    Flag(bool),
    /// The number that the token is.
    Number,
    /// The text that the token is.
    Text,
    NumberLiteral,
    TextLiteral,
    Boolean(bool),
    Null,
    Date,
    Timestamp,
    /// A number with a sign.
    SignedLiteral(Sign),
    Type(DataType),
    /// DECIMAL alone.
    PlainDecimal,
    /// DECIMAL with a precision.
    Decimal,
    /// DECIMAL with a precision and a scale.
    DecimalScale,
    Varchar,
}

#[derive(Clone, Copy)]
pub enum ExpressionMark {
    Literal,
    Column,
    Qualified,
    /// An expression in parentheses.
    Bracket,
    Signed(Sign),
    Not,
    Binary(BinaryOperator),
    /// IS NULL, or with true IS NOT NULL.
    IsNull(bool),
    Between,
    Like,
    LikeEscape,
    InList,
    InQuery,
    Exists,
    Subquery,
    /// A subquery whose query is a body in parentheses.
    BodySubquery,
    /// The number that the text is.
    Digits,
    Interval(Sign, IntervalUnit),
    First,
    Next,
    /// What may be left out: the condition of WHERE or HAVING, the value of ELSE.
    Written,
    Unwritten,
}

/// What begins with a word of its own.
#[derive(Clone, Copy)]
pub enum FunctionMark {
    Cast,
    /// The token is CASE.
    Case,
    Arm,
    End,
    Call(Function),
    Substring,
    SubstringFor,
    Form(TrimForm),
    Trim,
    TrimCharacter,
    Field(DateField),
    Extract,
    CountRows,
    Aggregate(Aggregate),
}

#[derive(Clone, Copy)]
pub enum QueryMark {
    Select,
    /// The token is the `*` of SELECT.
    Every,
    Item,
    Table,
    Derived,
    From,
    /// A join with ON, with true LEFT JOIN.
    Join(bool),
    CrossJoin,
    AddFrom,
    Group,
    /// The topmost that may be left out is the condition of HAVING, the next one that of WHERE.
    SelectBody,
    /// The token is VALUES.
    Values,
    Row,
    ValuesBody,
    /// A body in parentheses.
    BracketBody,
    SetOperation(SetOperator),
    Query,
    /// A key of ORDER BY, with true descending.
    Key(bool),
    Limit,
    Offset,
}

#[derive(Clone, Copy)]
pub enum ChangeMark {
    QueryStatement,
    Insert,
    InsertColumns,
    /// The token is VALUES.
    Tuples,
    Tuple,
    TupleValue,
    /// The token is DEFAULT.
    TupleDefault,
    AddTuple,
    /// The tuples are the rows of a query.
    TuplesBody,
    InsertTuples,
    InsertQuery,
    Update,
    Assign,
    /// The token is DEFAULT.
    AssignDefault,
    UpdateStatement,
    Delete,
    DeleteStatement,
    Lock,
    /// A table for READ, or with true for WRITE.
    Locked(bool),
    LockStatement,
}

#[derive(Clone, Copy)]
pub enum DefinitionMark {
    Create(Storage),
    ColumnElement,
    ConstraintElement,
    CreateStatement,
    CreateIndex,
    Define,
    Default,
    Named,
    Unnamed,
    NotNull,
    ColumnPrimary,
    ColumnUnique,
    ColumnCheck,
    ColumnReferences,
    References,
    ParentColumns,
    Action(ReferentialAction),
    OnDelete,
    OnUpdate,
    TablePrimary,
    TableUnique,
    TableCheck,
    TableForeign,
    AddColumn,
    AddConstraint,
    DropConstraint,
    DropTable,
    DropIndex,
}

#[derive(Clone, Copy)]
pub enum SessionMark {
    Modes,
    Level(Isolation),
    Access(Access),
    SetTransaction,
    SetCharacteristics,
    Start,
    Commit,
    Rollback,
    Savepoint,
    RollbackTo,
    Release,
    Autocommit(bool),
    Control(TransactionControl),
    DefaultLevel(Isolation),
    WriteDelayFalse,
    Checkpoint,
    Shutdown,
}

#[derive(Clone, Copy)]
pub enum Mark {
    Leaf(LeafMark),
    Expression(ExpressionMark),
    Function(FunctionMark),
    Query(QueryMark),
    Change(ChangeMark),
    Definition(DefinitionMark),
    Session(SessionMark),
}
