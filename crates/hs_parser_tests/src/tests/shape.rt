// Trees as texts: a node is its word and its parts in parentheses, a query stands in brackets, and a table with what is joined
// to it in braces. With places, a part stands behind its place and a colon.
use super::spelling::{aggregated, called, combined, extracted, operation, signed, trimmed};
use hs_ast::{
    CaseArm, ColumnName, Expression, ExpressionKind, FromItem, Identifier, IntervalUnit, Join,
    Limit, Literal, Query, QueryBody, Select, SelectItem, SortKey, TableReference, ValuesRow,
};
use sqlite_items::Boxed;
use std::alloc::Global;
use std::test::Fail;

/// The text of a tree, as far as it is written.
#[derive(Drop)]
pub struct Shape {
    text: String,
    places: bool,
    /// Memory was refused, so something is missing.
    torn: bool,
}

impl Shape {
    pub fn new(alloc: Global, places: bool) -> Shape {
        Shape {
            text: String::new(alloc),
            places,
            torn: false,
        }
    }

    pub fn into_text(self) -> Result<String, Fail> {
        if self.torn {
            return Err("no memory for a tree")?;
        }
        Ok(self.text)
    }

    pub fn put(&mut self, text: &str) {
        if self.text.push_str(text).is_err() {
            self.torn = true;
        }
    }

    pub fn count(&mut self, n: u128) {
        if write!(self.text, "{n}").is_err() {
            self.torn = true;
        }
    }

    pub fn place(&mut self, at: u32) {
        if self.places {
            self.count(u128::from(at));
            self.put(":");
        }
    }

    pub fn name(&mut self, name: &Identifier) {
        self.place(name.at);
        self.put(name.name.as_str());
    }

    /// Names, each behind a space.
    pub fn names(&mut self, names: &[Identifier]) {
        for name in names {
            self.put(" ");
            self.name(name);
        }
    }

    /// What stands before a part that has an alias.
    pub fn before_alias(&mut self, alias: &Option<Identifier>) {
        if alias.is_some() {
            self.put("(AS ");
        }
    }

    pub fn alias(&mut self, alias: &Option<Identifier>) {
        if let Some(name) = alias {
            self.put(" ");
            self.name(name);
            self.put(")");
        }
    }

    pub fn literal(&mut self, literal: &Literal) {
        match literal {
            Literal::Null => self.put("NULL"),
            Literal::Boolean(true) => self.put("TRUE"),
            Literal::Boolean(false) => self.put("FALSE"),
            Literal::Number(number) => self.number(number.units, number.scale),
            Literal::Text(text) => self.quoted("", text.as_str()),
            Literal::Date(text) => self.quoted("DATE", text.as_str()),
            Literal::Timestamp(text) => self.quoted("TIMESTAMP", text.as_str()),
        }
    }

    fn number(&mut self, units: i128, scale: u8) {
        if write!(self.text, "{units}").is_err() {
            self.torn = true;
        }
        if scale > 0 {
            self.put("e-");
            self.count(u128::from(scale));
        }
    }

    fn quoted(&mut self, kind: &str, text: &str) {
        self.put(kind);
        self.put("'");
        self.put(text);
        self.put("'");
    }

    fn column(&mut self, name: &ColumnName) {
        if let Some(table) = &name.table {
            self.put(table.as_str());
            self.put(".");
        }
        self.put(name.column.as_str());
    }

    fn limit(&mut self, limit: &Option<Limit>) {
        if let Some(limit) = limit {
            self.put(" LIMIT ");
            self.count(limit.count);
            if let Some(offset) = limit.offset {
                self.put(" OFFSET ");
                self.count(offset);
            }
        }
    }

    /// A predicate's opening.
    fn predicate(&mut self, negated: bool, word: &str) {
        self.put(if negated { "(NOT-" } else { "(" });
        self.put(word);
    }

    fn distinct(&mut self, distinct: bool) {
        if distinct {
            self.put(" DISTINCT");
        }
    }

    // ---- expressions

    #[cycle(shape)]
    pub fn expression(&mut self, e: &Expression) {
        self.place(e.at);
        self.kind(&e.kind);
    }

    /// An expression behind a space.
    #[cycle(shape)]
    fn part(&mut self, e: &Boxed<Expression>) {
        self.put(" ");
        self.expression(e.get());
    }

    /// Expressions, each behind a space.
    #[cycle(shape)]
    fn parts(&mut self, all: &[Expression]) {
        for e in all {
            self.put(" ");
            self.expression(e);
        }
    }

    #[cycle(shape)]
    fn arms(&mut self, arms: &[CaseArm]) {
        for arm in arms {
            self.put(" (WHEN ");
            self.expression(&arm.test);
            self.put(" ");
            self.expression(&arm.value);
            self.put(")");
        }
    }

    #[cycle(shape)]
    fn kind(&mut self, kind: &ExpressionKind) {
        match kind {
            ExpressionKind::Literal(literal) => self.literal(literal),
            ExpressionKind::Column(name) => self.column(name),
            ExpressionKind::Signed(sign, e) => {
                self.put(signed(*sign));
                self.part(e);
                self.put(")");
            }
            ExpressionKind::Not(e) => {
                self.put("(NOT");
                self.part(e);
                self.put(")");
            }
            ExpressionKind::Binary(operator, left, right) => {
                self.put(operation(*operator));
                self.part(left);
                self.part(right);
                self.put(")");
            }
            ExpressionKind::IsNull { operand, negated } => {
                self.predicate(*negated, "NULL");
                self.part(operand);
                self.put(")");
            }
            ExpressionKind::Between {
                operand,
                negated,
                low,
                high,
            } => {
                self.predicate(*negated, "BETWEEN");
                self.part(operand);
                self.part(low);
                self.part(high);
                self.put(")");
            }
            ExpressionKind::InList {
                operand,
                negated,
                list,
            } => {
                self.predicate(*negated, "IN");
                self.part(operand);
                self.parts(list.as_slice());
                self.put(")");
            }
            ExpressionKind::InQuery {
                operand,
                negated,
                query,
            } => {
                self.predicate(*negated, "IN");
                self.part(operand);
                self.put(" ");
                self.query(query.get());
                self.put(")");
            }
            ExpressionKind::Like {
                operand,
                negated,
                pattern,
                escape,
            } => {
                self.predicate(*negated, "LIKE");
                self.part(operand);
                self.part(pattern);
                if let Some(escape) = escape {
                    self.quoted(" ESCAPE", escape.as_str());
                }
                self.put(")");
            }
            ExpressionKind::Exists(query) => {
                self.put("(EXISTS ");
                self.query(query.get());
                self.put(")");
            }
            ExpressionKind::Subquery(query) => {
                self.put("(");
                self.query(query.get());
                self.put(")");
            }
            ExpressionKind::Cast(e, data_type) => {
                self.put("(CAST");
                self.part(e);
                self.put(" ");
                self.data_type(*data_type);
                self.put(")");
            }
            ExpressionKind::Case { arms, otherwise } => {
                self.put("(CASE");
                self.arms(arms.as_slice());
                if let Some(e) = otherwise {
                    self.put(" ELSE");
                    self.part(e);
                }
                self.put(")");
            }
            ExpressionKind::Call(function, arguments) => {
                self.put(called(*function));
                self.parts(arguments.as_slice());
                self.put(")");
            }
            ExpressionKind::Substring { text, start, count } => {
                self.put("(SUBSTRING");
                self.part(text);
                self.part(start);
                if let Some(e) = count {
                    self.part(e);
                }
                self.put(")");
            }
            ExpressionKind::Trim {
                form,
                character,
                text,
            } => {
                self.put(trimmed(*form));
                if let Some(e) = character {
                    self.part(e);
                }
                self.part(text);
                self.put(")");
            }
            ExpressionKind::Extract(field, e) => {
                self.put(extracted(*field));
                self.part(e);
                self.put(")");
            }
            ExpressionKind::Interval {
                operand,
                sign,
                count,
                unit,
            } => {
                self.put(signed(*sign));
                self.part(operand);
                self.put(" ");
                self.count(u128::from(*count));
                self.put(match unit {
                    IntervalUnit::Day => " DAY)",
                    IntervalUnit::Month => " MONTH)",
                });
            }
            ExpressionKind::CountRows => self.put("(COUNT *)"),
            ExpressionKind::Aggregate {
                function,
                distinct,
                operand,
            } => {
                self.put(aggregated(*function));
                self.distinct(*distinct);
                self.part(operand);
                self.put(")");
            }
        }
    }

    // ---- queries

    #[cycle(shape)]
    pub fn query(&mut self, query: &Query) {
        self.place(query.at);
        self.put("[");
        self.body(&query.body);
        self.keys(query.order_by.as_slice());
        self.limit(&query.limit);
        self.put("]");
    }

    #[cycle(shape)]
    fn body(&mut self, body: &QueryBody) {
        match body {
            QueryBody::Select(select) => self.select(select.get()),
            QueryBody::Values(rows) => {
                self.put("VALUES");
                self.rows(rows.as_slice());
            }
            QueryBody::SetOperation(operator, left, right) => {
                self.put("(");
                self.body(left.get());
                self.put(combined(*operator));
                self.body(right.get());
                self.put(")");
            }
        }
    }

    #[cycle(shape)]
    fn rows(&mut self, rows: &[ValuesRow]) {
        for row in rows {
            self.put(" (ROW");
            self.parts(row.values.as_slice());
            self.put(")");
        }
    }

    #[cycle(shape)]
    fn select(&mut self, select: &Select) {
        self.put("SELECT");
        self.distinct(select.distinct);
        self.items(select.items.as_slice());
        self.put(" FROM");
        self.from(select.from.as_slice());
        if let Some(e) = &select.filter {
            self.put(" WHERE");
            self.part(e);
        }
        if !select.group_by.is_empty() {
            self.put(" GROUP");
        }
        self.parts(select.group_by.as_slice());
        if let Some(e) = &select.having {
            self.put(" HAVING");
            self.part(e);
        }
    }

    #[cycle(shape)]
    fn items(&mut self, items: &[SelectItem]) {
        for item in items {
            self.put(" ");
            self.item(item);
        }
    }

    #[cycle(shape)]
    fn item(&mut self, item: &SelectItem) {
        match item {
            SelectItem::Every(at) => {
                self.place(*at);
                self.put("*");
            }
            SelectItem::One { at, value, alias } => {
                self.place(*at);
                self.before_alias(alias);
                self.expression(value);
                self.alias(alias);
            }
        }
    }

    #[cycle(shape)]
    fn from(&mut self, from: &[FromItem]) {
        for item in from {
            self.put(" {");
            self.table(&item.table);
            self.joins(item.joins.as_slice());
            self.put("}");
        }
    }

    #[cycle(shape)]
    fn table(&mut self, table: &TableReference) {
        match table {
            TableReference::Named { name, alias } => {
                self.before_alias(alias);
                self.name(name);
                self.alias(alias);
            }
            TableReference::Derived { query, alias } => {
                self.put("(AS ");
                self.query(query.get());
                self.put(" ");
                self.name(alias);
                self.put(")");
            }
        }
    }

    #[cycle(shape)]
    fn joins(&mut self, joins: &[Join]) {
        for join in joins {
            self.join(join);
        }
    }

    #[cycle(shape)]
    fn join(&mut self, join: &Join) {
        match join {
            Join::Inner(table, on) => {
                self.put(" JOIN ");
                self.table(table);
                self.put(" ON ");
                self.expression(on);
            }
            Join::Left(table, on) => {
                self.put(" LEFT ");
                self.table(table);
                self.put(" ON ");
                self.expression(on);
            }
            Join::Cross(table) => {
                self.put(" CROSS ");
                self.table(table);
            }
        }
    }

    #[cycle(shape)]
    fn keys(&mut self, keys: &[SortKey]) {
        for key in keys {
            self.put(" BY ");
            self.place(key.at);
            self.expression(&key.value);
            if key.descending {
                self.put(" DESC");
            }
        }
    }
}
