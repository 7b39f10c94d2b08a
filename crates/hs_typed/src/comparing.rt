// Literal texts that are read as dates and timestamps, since they are compared with them.
ghost use Rattle.std.specs.Prelude.{◌≡◌, ◌∷◌, [], MatchOption};
ghost use Rattle.std.specs.Option.{option_map};
ghost use Rattle.std.specs.Str.{chars};
ghost use Rattle.hs_typed.specs.Comparing as spec;

use crate::typed::Typed;
use hs_plan::{Expr, Kind, Reading, are_comparable};
use hs_temporal::{read_date, read_stamp};
use hs_values::Value;

/// The text of a literal text.
pub(crate) fn literal_text(tree: &Expr) -> Option<&str>
    ensures { option_map (λ text. text.now) result ≡ spec.literal_text tree.now }
{
    match tree {
        Expr::Literal(Value::Text(text)) => Some(text.as_str()),
        _ => None,
    }
}

/// The first character of a text, and what follows it.
fn split_first(text: &str) -> Option<(char, &str)>
    ensures { MatchOption result (chars text.now ≡ []) (λ parts. chars text.now ≡ parts.0 ∷ chars parts.1.now) }
{
    let mut rest = text.chars();
    match rest.next() {
        Some(first) => Some((first, rest.as_str())),
        None => None,
    }
}

/// The character of a text that has just one.
pub(crate) fn only_character(text: &str) -> Option<char>
    ensures { result ≡ spec.only_character text.now }
{
    let Some((first, rest)) = split_first(text) else {
        return None;
    };
    match split_first(rest) {
        None => Some(first),
        Some(_) => None,
    }
}

/// What a text is read as beside a value of a kind.
fn reading_of(kind: Kind, text: &str) -> Option<Reading>
    ensures { result ≡ spec.reading_of kind text.now }
{
    match kind {
        Kind::Date => match read_date(text) {
            Ok(day) => Some(Reading::Day(day)),
            Err(_) => Some(Reading::BadDate),
        },
        Kind::Timestamp => match read_stamp(text) {
            Ok(micros) => Some(Reading::Micros(micros)),
            Err(_) => Some(Reading::BadTimestamp),
        },
        _ => None,
    }
}

/// The same literal text as it is read, if it is one that is read.
fn read_as(tree: Expr, reading: Option<Reading>) -> Expr
    ensures { result ≡ spec.as_read tree (spec.literal_text tree) reading }
{
    match (tree, reading) {
        (Expr::Literal(Value::Text(text)), Some(reading)) => Expr::ReadText { text, reading },
        (tree, _) => tree,
    }
}

impl Typed {
    /// What it is read as where it is compared with a value of a kind.
    pub(crate) fn reading_beside(&self, kind: Kind) -> Option<Reading>
        ensures { result ≡ spec.reading_beside kind self.now }
    {
        reading_of(kind, literal_text(&self.tree)?)
    }

    /// Its kind where it is compared with a value of a kind.
    fn kind_beside(&self, kind: Kind) -> Kind
        ensures { result ≡ (spec.beside kind self.now).kind }
    {
        match self.reading_beside(kind) {
            Some(_) => kind,
            None => self.kind,
        }
    }

    /// What it is where it is compared with a value of a kind.
    pub(crate) fn beside(self, kind: Kind) -> Typed
        ensures { result ≡ spec.beside kind self }
    {
        let reading = self.reading_beside(kind);
        let kind = self.kind_beside(kind);
        Typed {
            tree: read_as(self.tree, reading),
            kind,
        }
    }

    /// Whether the two may be compared.
    pub(crate) fn goes_with(&self, other: &Typed) -> bool
        ensures { result ≡ spec.goes_with self.now other.now }
    {
        are_comparable(self.kind_beside(other.kind), other.kind_beside(self.kind))
    }
}
