// Statements as texts, in the manner of `shape`.
use super::shape::Shape;
use hs_ast::{
    Access, AlterAction, Assignment, ColumnConstraint, ColumnDefinition, ColumnRule, CreateTable,
    DataType, Delete, Expression, ForeignKey, Identifier, Insert, InsertSource, Isolation,
    LockedTable, Modes, NewValue, ReferentialAction, Stmt, Storage, TableConstraint, TableElement,
    TableRule, TransactionControl, Update,
};
use sqlite_items::Items;

impl Shape {
    // ---- types and definitions

    pub fn data_type(&mut self, data_type: DataType) {
        match data_type {
            DataType::SmallInt => self.put("SMALLINT"),
            DataType::Integer => self.put("INTEGER"),
            DataType::BigInt => self.put("BIGINT"),
            DataType::Decimal { precision, scale } => {
                self.put("DECIMAL-");
                self.count(u128::from(precision));
                self.put("-");
                self.count(u128::from(scale));
            }
            DataType::Varchar(most) => {
                self.put("VARCHAR-");
                self.count(u128::from(most));
            }
            DataType::Boolean => self.put("BOOLEAN"),
            DataType::Date => self.put("DATE"),
            DataType::Timestamp => self.put("TIMESTAMP"),
        }
    }

    /// What stands between a constraint's space and its rule.
    fn header(&mut self, at: u32, name: &Option<Identifier>) {
        self.put(" ");
        self.place(at);
        if let Some(name) = name {
            self.name(name);
            self.put("=");
        }
    }

    fn check(&mut self, e: &Expression) {
        self.put("(CHECK ");
        self.expression(e);
        self.put(")");
    }

    fn columns(&mut self, columns: &[Identifier]) {
        if !columns.is_empty() {
            self.put(" (COLUMNS");
            self.names(columns);
            self.put(")");
        }
    }

    fn references(&mut self, key: &ForeignKey) {
        self.put("(REFERENCES ");
        self.name(&key.parent);
        self.columns(key.parent_columns.as_slice());
        self.put(acting(key.on_delete));
        self.put(acting(key.on_update));
        self.put(")");
    }

    fn column_constraint(&mut self, constraint: &ColumnConstraint) {
        self.header(constraint.at, &constraint.name);
        match &constraint.rule {
            ColumnRule::NotNull => self.put("(NOT-NULL)"),
            ColumnRule::PrimaryKey => self.put("(PRIMARY-KEY)"),
            ColumnRule::Unique => self.put("(UNIQUE)"),
            ColumnRule::Check(e) => self.check(e),
            ColumnRule::References(key) => self.references(key),
        }
    }

    fn column_definition(&mut self, column: &ColumnDefinition) {
        self.put(" (COLUMN ");
        self.name(&column.name);
        self.put(" ");
        self.data_type(column.data_type);
        if let Some(default) = &column.default {
            self.put(" DEFAULT ");
            self.place(default.at);
            self.literal(&default.literal);
        }
        for constraint in column.constraints.as_slice() {
            self.column_constraint(constraint);
        }
        self.put(")");
    }

    fn table_constraint(&mut self, constraint: &TableConstraint) {
        self.header(constraint.at, &constraint.name);
        match &constraint.rule {
            TableRule::PrimaryKey(columns) => {
                self.put("(PRIMARY-KEY");
                self.names(columns.as_slice());
                self.put(")");
            }
            TableRule::Unique(columns) => {
                self.put("(UNIQUE");
                self.names(columns.as_slice());
                self.put(")");
            }
            TableRule::Check(e) => self.check(e),
            TableRule::ForeignKey(columns, key) => {
                self.put("(FOREIGN-KEY");
                self.names(columns.as_slice());
                self.put(" ");
                self.references(key);
                self.put(")");
            }
        }
    }

    fn create_table(&mut self, create: &CreateTable) {
        self.put(match create.storage {
            Storage::Memory => "(CREATE MEMORY ",
            Storage::Cached => "(CREATE CACHED ",
        });
        self.name(&create.name);
        for element in create.elements.as_slice() {
            match element {
                TableElement::Column(column) => self.column_definition(column),
                TableElement::Constraint(constraint) => self.table_constraint(constraint),
            }
        }
        self.put(")");
    }

    fn alteration(&mut self, action: &AlterAction) {
        match action {
            AlterAction::AddColumn(column) => {
                self.put(" ADD");
                self.column_definition(column);
            }
            AlterAction::AddConstraint(constraint) => {
                self.put(" ADD");
                self.table_constraint(constraint);
            }
            AlterAction::DropConstraint(name) => {
                self.put(" DROP ");
                self.name(name);
            }
        }
    }

    // ---- changes

    fn target(&mut self, table: &Identifier, alias: &Option<Identifier>) {
        self.before_alias(alias);
        self.name(table);
        self.alias(alias);
    }

    fn filter(&mut self, filter: &Option<Expression>) {
        if let Some(e) = filter {
            self.put(" WHERE ");
            self.expression(e);
        }
    }

    fn new_value(&mut self, value: &NewValue) {
        self.put(" ");
        match value {
            NewValue::Expression(e) => self.expression(e),
            NewValue::Default(at) => {
                self.place(*at);
                self.put("DEFAULT");
            }
        }
    }

    fn tuples(&mut self, tuples: &[Items<NewValue>]) {
        for tuple in tuples {
            self.put(" (ROW");
            for value in tuple.as_slice() {
                self.new_value(value);
            }
            self.put(")");
        }
    }

    fn insert(&mut self, insert: &Insert) {
        self.put("(INSERT ");
        self.name(&insert.table);
        self.columns(insert.columns.as_slice());
        match &insert.source {
            InsertSource::Tuples(tuples) => self.tuples(tuples.as_slice()),
            InsertSource::Query(query) => {
                self.put(" ");
                self.query(query);
            }
        }
        self.put(")");
    }

    fn assignment(&mut self, assignment: &Assignment) {
        self.put(" (SET ");
        self.name(&assignment.column);
        self.new_value(&assignment.value);
        self.put(")");
    }

    fn update(&mut self, update: &Update) {
        self.put("(UPDATE ");
        self.target(&update.table, &update.alias);
        for assignment in update.assignments.as_slice() {
            self.assignment(assignment);
        }
        self.filter(&update.filter);
        self.put(")");
    }

    fn delete(&mut self, delete: &Delete) {
        self.put("(DELETE ");
        self.target(&delete.table, &delete.alias);
        self.filter(&delete.filter);
        self.put(")");
    }

    fn locks(&mut self, locks: &[LockedTable]) {
        self.put("(LOCK");
        for lock in locks {
            self.put(if lock.write { " (WRITE " } else { " (READ " });
            self.name(&lock.table);
            self.put(")");
        }
        self.put(")");
    }

    // ---- sessions

    fn modes(&mut self, word: &str, modes: Modes) {
        self.put(word);
        if let Some(isolation) = modes.isolation {
            self.put(level(isolation));
        }
        if let Some(access) = modes.access {
            self.put(match access {
                Access::ReadOnly => " READ-ONLY",
                Access::ReadWrite => " READ-WRITE",
            });
        }
        self.put(")");
    }

    /// A word and a text in parentheses.
    fn pair(&mut self, word: &str, text: &str) {
        self.put(word);
        self.put(text);
        self.put(")");
    }

    pub fn statement(&mut self, statement: &Stmt) {
        match statement {
            Stmt::Query(query) => self.query(query),
            Stmt::Insert(insert) => self.insert(insert),
            Stmt::Update(update) => self.update(update),
            Stmt::Delete(delete) => self.delete(delete),
            Stmt::LockTable(locks) => self.locks(locks.as_slice()),
            Stmt::CreateTable(create) => self.create_table(create),
            Stmt::CreateIndex(create) => {
                self.put("(INDEX ");
                self.name(&create.name);
                self.put(" ");
                self.name(&create.table);
                self.columns(create.columns.as_slice());
                self.put(")");
            }
            Stmt::AlterTable(alter) => {
                self.put("(ALTER ");
                self.name(&alter.table);
                self.alteration(&alter.action);
                self.put(")");
            }
            Stmt::DropTable(name) => {
                self.put("(DROP-TABLE ");
                self.name(name);
                self.put(")");
            }
            Stmt::DropIndex(name) => {
                self.put("(DROP-INDEX ");
                self.name(name);
                self.put(")");
            }
            Stmt::SetControl(control) => self.pair("(CONTROL", controlled(*control)),
            Stmt::SetDefaultLevel(isolation) => self.pair("(DEFAULT-LEVEL", level(*isolation)),
            Stmt::SetAutocommit(true) => self.put("(AUTOCOMMIT TRUE)"),
            Stmt::SetAutocommit(false) => self.put("(AUTOCOMMIT FALSE)"),
            Stmt::SetCharacteristics(modes) => self.modes("(CHARACTERISTICS", *modes),
            Stmt::SetTransaction(modes) => self.modes("(TRANSACTION", *modes),
            Stmt::StartTransaction(modes) => self.modes("(START", *modes),
            Stmt::Commit => self.put("(COMMIT)"),
            Stmt::Rollback => self.put("(ROLLBACK)"),
            Stmt::Savepoint(name) => self.pair("(SAVEPOINT ", name.as_str()),
            Stmt::RollbackTo(name) => self.pair("(ROLLBACK-TO ", name.as_str()),
            Stmt::ReleaseSavepoint(name) => self.pair("(RELEASE ", name.as_str()),
            Stmt::WriteDelayFalse => self.put("(WRITE-DELAY FALSE)"),
            Stmt::Checkpoint => self.put("(CHECKPOINT)"),
            Stmt::Shutdown => self.put("(SHUTDOWN)"),
        }
    }
}

fn acting(action: ReferentialAction) -> &'static str {
    match action {
        ReferentialAction::NoAction => " NO-ACTION",
        ReferentialAction::Restrict => " RESTRICT",
        ReferentialAction::Cascade => " CASCADE",
        ReferentialAction::SetNull => " SET-NULL",
        ReferentialAction::SetDefault => " SET-DEFAULT",
    }
}

fn level(isolation: Isolation) -> &'static str {
    match isolation {
        Isolation::ReadCommitted => " READ-COMMITTED",
        Isolation::RepeatableRead => " REPEATABLE-READ",
        Isolation::Serializable => " SERIALIZABLE",
    }
}

fn controlled(control: TransactionControl) -> &'static str {
    match control {
        TransactionControl::Locks => " LOCKS",
        TransactionControl::MvLocks => " MVLOCKS",
        TransactionControl::Mvcc => " MVCC",
    }
}
