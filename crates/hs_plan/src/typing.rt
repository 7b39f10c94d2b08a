// The rules of kinds: which operands an operator takes, and the kind of what it gives.
ghost use Rattle.std.specs.Prelude.{◌≡◌};
ghost use Rattle.hs_plan.specs.Typing as spec;

use crate::kind::Kind;
use crate::operator::{Binary, Ternary, Unary};
use hs_ast::{Aggregate, BinaryOperator, DateField};
use hs_values::SqlType;

/// The kind of a column's values.
pub fn kind_of_type(t: &SqlType) -> Kind
    ensures { result ≡ spec.kind_of_type t.now }
{
    match t {
        SqlType::Small | SqlType::Integer | SqlType::Big => Kind::Whole,
        SqlType::Decimal { scale, .. } => Kind::Decimal(*scale),
        SqlType::Varchar { .. } => Kind::Text,
        SqlType::Bool => Kind::Boolean,
        SqlType::Date => Kind::Date,
        SqlType::Stamp => Kind::Timestamp,
    }
}

/// The kind at which CASE, COALESCE, VALUES and set operations give values of two kinds: numbers at the greater
/// scale. None where they don't go together.
pub fn widest(a: Kind, b: Kind) -> Option<Kind>
    ensures { result ≡ spec.widest a b }
{
    match (a, b) {
        (Kind::Null, b) => Some(b),
        (a, Kind::Null) => Some(a),
        (Kind::Whole, Kind::Whole) => Some(Kind::Whole),
        (Kind::Whole, Kind::Decimal(r)) => Some(Kind::Decimal(r)),
        (Kind::Decimal(s), Kind::Whole) => Some(Kind::Decimal(s)),
        (Kind::Decimal(s), Kind::Decimal(r)) => Some(Kind::Decimal(s.max(r))),
        (Kind::TooWide, Kind::Whole | Kind::Decimal(_) | Kind::TooWide) => Some(Kind::TooWide),
        (Kind::Whole | Kind::Decimal(_), Kind::TooWide) => Some(Kind::TooWide),
        (Kind::Text, Kind::Text) => Some(Kind::Text),
        (Kind::Boolean, Kind::Boolean) => Some(Kind::Boolean),
        (Kind::Date, Kind::Date) => Some(Kind::Date),
        (Kind::Timestamp, Kind::Timestamp) => Some(Kind::Timestamp),
        _ => None,
    }
}

/// Whether values of two kinds may be compared.
pub fn are_comparable(a: Kind, b: Kind) -> bool
    ensures { result ≡ spec.are_comparable a b }
{
    widest(a, b).is_some()
}

/// Whether a value of a kind may be assigned to a column. A literal text that is assigned to a date or a timestamp
/// is read as one before.
pub fn is_assignable(column: &SqlType, kind: Kind) -> bool
    ensures { result ≡ spec.is_assignable column.now kind }
{
    are_comparable(kind_of_type(column), kind)
}

/// Whether WHERE, ON, HAVING, WHEN, CHECK, AND, OR and NOT take it.
pub fn is_condition(kind: Kind) -> bool
    ensures { result ≡ spec.is_condition kind }
{
    matches!(&kind, Kind::Null | Kind::Boolean)
}

fn is_text(kind: Kind) -> bool
    ensures { result ≡ spec.is_text kind }
{
    matches!(&kind, Kind::Null | Kind::Text)
}

fn is_whole(kind: Kind) -> bool
    ensures { result ≡ spec.is_whole kind }
{
    matches!(&kind, Kind::Null | Kind::Whole)
}

fn is_moment(kind: Kind) -> bool
    ensures { result ≡ spec.is_moment kind }
{
    matches!(&kind, Kind::Null | Kind::Date | Kind::Timestamp)
}

/// The kind of a number, as which NULL is a whole one.
fn number_of(kind: Kind) -> Option<Kind>
    ensures { result ≡ spec.number_of kind }
{
    match kind {
        Kind::Null | Kind::Whole => Some(Kind::Whole),
        Kind::Decimal(s) => Some(Kind::Decimal(s)),
        Kind::TooWide => Some(Kind::TooWide),
        _ => None,
    }
}

fn given(right: bool, kind: Kind) -> Option<Kind>
    ensures { result ≡ spec.given right kind }
{
    if right { Some(kind) } else { None }
}

fn sum_kind(a: Kind, b: Kind) -> Option<Kind>
    ensures { result ≡ spec.sum_kind a b }
{
    widest(number_of(a)?, number_of(b)?)
}

/// Decimals of a scale.
fn scaled(scale: u16) -> Kind
    ensures { result ≡ spec.scaled scale }
{
    if scale <= 38 {
        Kind::Decimal(scale as u8)
    } else {
        Kind::TooWide
    }
}

fn product(a: Kind, b: Kind) -> Option<Kind>
    ensures { result ≡ spec.product a b }
{
    match (a, b) {
        (Kind::Decimal(s), Kind::Decimal(r)) => Some(scaled(u16::from(s) + u16::from(r))),
        (a, b) => widest(a, b),
    }
}

fn product_kind(a: Kind, b: Kind) -> Option<Kind>
    ensures { result ≡ spec.product_kind a b }
{
    product(number_of(a)?, number_of(b)?)
}

fn has_field(field: DateField, kind: Kind) -> bool
    ensures { result ≡ spec.has_field field kind }
{
    match field {
        DateField::Year | DateField::Month | DateField::Day => is_moment(kind),
        _ => matches!(&kind, Kind::Null | Kind::Timestamp),
    }
}

fn is_castable(column: &SqlType, kind: Kind) -> bool
    ensures { result ≡ spec.is_castable column.now kind }
{
    match column {
        SqlType::Varchar { .. } => true,
        SqlType::Date | SqlType::Stamp => is_text(kind) || is_moment(kind),
        _ => is_assignable(column, kind),
    }
}

impl Unary {
    /// The kind of its value, for an operand of this kind. None where that is a fault of types.
    pub fn kind(self, a: Kind) -> Option<Kind>
        ensures { result ≡ spec.unary_kind self a }
    {
        match self {
            Unary::Plus | Unary::Minus | Unary::Abs => number_of(a),
            Unary::Not => given(is_condition(a), Kind::Boolean),
            Unary::IsNull | Unary::IsNotNull => Some(Kind::Boolean),
            Unary::Cast(column) => given(is_castable(&column, a), kind_of_type(&column)),
            Unary::Upper | Unary::Lower | Unary::Trim(_) => given(is_text(a), Kind::Text),
            Unary::CharLength => given(is_text(a), Kind::Whole),
            Unary::Extract(field) => given(has_field(field, a), Kind::Whole),
            Unary::Interval { .. } => given(is_moment(a), a),
        }
    }
}

fn operator_kind(operator: BinaryOperator, a: Kind, b: Kind) -> Option<Kind>
    ensures { result ≡ spec.operator_kind operator a b }
{
    match operator {
        BinaryOperator::And | BinaryOperator::Or => {
            given(is_condition(a) && is_condition(b), Kind::Boolean)
        }
        BinaryOperator::Equal
        | BinaryOperator::NotEqual
        | BinaryOperator::Less
        | BinaryOperator::LessOrEqual
        | BinaryOperator::Greater
        | BinaryOperator::GreaterOrEqual => given(are_comparable(a, b), Kind::Boolean),
        BinaryOperator::Add | BinaryOperator::Subtract | BinaryOperator::Divide => sum_kind(a, b),
        BinaryOperator::Multiply => product_kind(a, b),
        BinaryOperator::Concatenate => given(is_text(a) && is_text(b), Kind::Text),
    }
}

impl Binary {
    /// The kind of its value, for operands of these kinds. None where that is a fault of types.
    pub fn kind(self, a: Kind, b: Kind) -> Option<Kind>
        ensures { result ≡ spec.binary_kind self a b }
    {
        match self {
            Binary::Operator(operator) => operator_kind(operator, a, b),
            Binary::Mod => given(is_whole(a) && is_whole(b), Kind::Whole),
            Binary::NullIf { .. } => given(are_comparable(a, b), a),
            Binary::Like { .. } => given(is_text(a) && is_text(b), Kind::Boolean),
            Binary::TrimOf(_) => given(is_text(a) && is_text(b), Kind::Text),
            Binary::SubstringFrom => given(is_text(a) && is_whole(b), Kind::Text),
        }
    }
}

impl Ternary {
    /// The kind of its value, for operands of these kinds. None where that is a fault of types.
    pub fn kind(self, a: Kind, b: Kind, c: Kind) -> Option<Kind>
        ensures { result ≡ spec.ternary_kind self a b c }
    {
        match self {
            Ternary::Between { .. } => {
                given(are_comparable(a, b) && are_comparable(a, c), Kind::Boolean)
            }
            Ternary::SubstringFor => given(is_text(a) && is_whole(b) && is_whole(c), Kind::Text),
        }
    }
}

/// The kind of an aggregate's value, for an operand of this kind. None where that is a fault of types.
pub fn aggregate_kind(function: Aggregate, a: Kind) -> Option<Kind>
    ensures { result ≡ spec.aggregate_kind function a }
{
    match function {
        Aggregate::Count => Some(Kind::Whole),
        Aggregate::Sum | Aggregate::Avg => number_of(a),
        Aggregate::Min | Aggregate::Max => Some(a),
    }
}
