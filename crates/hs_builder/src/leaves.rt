// The steps that read names, numbers and texts, and those on lists of names, aliases, literals and types.
ghost use Rattle.std.specs.Prelude.{◌≡◌, ◌+◌, ◌≤◌, MatchOption, MatchResult, ⊤, length};
ghost use Rattle.hs_builder.specs.Steps.{Gives};
ghost use Rattle.hs_builder.specs.Leaves as spec;
ghost use Rattle.hs_builder.specs.declared.build_fault.BuildFault.TheVariants.{NoMemory};

use crate::build_fault::BuildFault;
use crate::natural::{short_natural, small_natural};
use crate::part::{PlacedLiteral, PlacedNumber, PlacedText};
use crate::stack::Stack;
use hs_ast::{DataType, Identifier, Literal, Number, Sign, Word};
use hs_lexer::{Token, content, name as name_of, written};
use sqlite_items::Items;
use std::alloc::Global;

// ---- names

pub fn name(
    alloc: Global,
    text: &str,
    token: Token,
    names: &mut Stack<Identifier>,
) -> Result<(), BuildFault>
    ensures { Gives (spec.name text.now token names.old) result names.new }
{
    let name = name_of(alloc, text, token)?;
    names.push(Identifier {
        name: Word::from_string(name),
        at: token.start,
    })
}

pub fn first_name(
    alloc: Global,
    names: &mut Stack<Identifier>,
    lists: &mut Stack<Items<Identifier>>,
) -> Result<(), BuildFault>
    ensures { Gives (spec.first_name (names.old, lists.old)) result (names.new, lists.new) }
{
    let name = names.pop()?;
    let mut list = Items::new(alloc);
    list.push(name)?;
    lists.push(list)
}

pub fn next_name(
    names: &mut Stack<Identifier>,
    lists: &mut Stack<Items<Identifier>>,
) -> Result<(), BuildFault>
    ensures { Gives (spec.next_name (names.old, lists.old)) result (names.new, lists.new) }
{
    let name = names.pop()?;
    let mut list = lists.pop()?;
    list.push(name)?;
    lists.push(list)
}

pub fn alias(
    names: &mut Stack<Identifier>,
    aliases: &mut Stack<Option<Identifier>>,
) -> Result<(), BuildFault>
    ensures { Gives (spec.alias (names.old, aliases.old)) result (names.new, aliases.new) }
{
    let name = names.pop()?;
    aliases.push(Some(name))
}

// ---- numbers and texts

/// The number that digits are, with no regard to a point between them. None only where it is above 2^128.
fn digits_value(digits: &[u8]) -> Option<u128>
    ensures { MatchOption result ⊤ (λ n. n ≡ spec.units_of digits.now) }
{
    let mut value: u128 = 0;
    for b in digits {
        if *b != b'.' {
            value = value
                .checked_mul(10)?
                .checked_add(u128::from(b.saturating_sub(b'0')))?;
        }
    }
    Some(value)
}

/// The number of digits behind the point.
fn scale_of(digits: &[u8]) -> usize
    ensures { result ≡ spec.scale_of digits.now }
{
    let mut rest = digits;
    while let Some((first, behind)) = rest.split_first() {
        if *first == b'.' {
            return behind.len();
        }
        rest = behind;
    }
    0
}

fn number_in(digits: &[u8]) -> Result<Number, BuildFault>
    ensures { MatchResult result (λ n. n ≡ spec.number_in digits.now) (λ e. e ≡ NoMemory) }
{
    let Some(value) = digits_value(digits) else {
        return Err(BuildFault::NoMemory);
    };
    let Ok(units) = i128::try_from(value) else {
        return Err(BuildFault::NoMemory);
    };
    let Ok(scale) = u8::try_from(scale_of(digits)) else {
        return Err(BuildFault::NoMemory);
    };
    Ok(Number { units, scale })
}

pub fn number(text: &str, token: Token, numbers: &mut Stack<PlacedNumber>) -> Result<(), BuildFault>
    ensures { Gives (spec.number text.now token numbers.old) result numbers.new }
{
    let number = number_in(written(text, token).as_bytes())?;
    numbers.push(PlacedNumber {
        number,
        at: token.start,
    })
}

pub fn read_text(
    alloc: Global,
    text: &str,
    token: Token,
    texts: &mut Stack<PlacedText>,
) -> Result<(), BuildFault>
    ensures { Gives (spec.read_text text.now token texts.old) result texts.new }
{
    let content = content(alloc, text, token)?;
    texts.push(PlacedText {
        text: Word::from_string(content),
        at: token.start,
    })
}

/// The number of an interval, from its text.
pub fn digits(texts: &mut Stack<PlacedText>, counts: &mut Stack<u64>) -> Result<(), BuildFault>
    ensures { Gives (spec.digits (texts.old, counts.old)) result (texts.new, counts.new) }
{
    let text = texts.pop()?;
    let Some(value) = digits_value(text.text.as_str().as_bytes()) else {
        return Err(BuildFault::NoMemory);
    };
    let Ok(count) = u64::try_from(value) else {
        return Err(BuildFault::NoMemory);
    };
    counts.push(count)
}

// ---- literals

pub fn number_literal(
    numbers: &mut Stack<PlacedNumber>,
    literals: &mut Stack<PlacedLiteral>,
) -> Result<(), BuildFault>
    ensures { Gives (spec.number_literal (numbers.old, literals.old)) result (numbers.new, literals.new) }
{
    let number = numbers.pop()?;
    literals.push(PlacedLiteral {
        literal: Literal::Number(number.number),
        at: number.at,
    })
}

pub fn text_literal(
    texts: &mut Stack<PlacedText>,
    literals: &mut Stack<PlacedLiteral>,
) -> Result<(), BuildFault>
    ensures { Gives (spec.text_literal (texts.old, literals.old)) result (texts.new, literals.new) }
{
    let text = texts.pop()?;
    literals.push(PlacedLiteral {
        literal: Literal::Text(text.text),
        at: text.at,
    })
}

pub fn word_literal(
    token: Token,
    literals: &mut Stack<PlacedLiteral>,
    literal: Literal,
) -> Result<(), BuildFault>
    ensures { Gives (spec.word_literal literal token literals.old) result literals.new }
{
    literals.push(PlacedLiteral {
        literal,
        at: token.start,
    })
}

pub fn date(
    places: &mut Stack<u32>,
    texts: &mut Stack<PlacedText>,
    literals: &mut Stack<PlacedLiteral>,
) -> Result<(), BuildFault>
    ensures { Gives (spec.date (places.old, texts.old, literals.old)) result (places.new, texts.new, literals.new) }
{
    let text = texts.pop()?;
    let at = places.pop()?;
    literals.push(PlacedLiteral {
        literal: Literal::Date(text.text),
        at,
    })
}

pub fn timestamp(
    places: &mut Stack<u32>,
    texts: &mut Stack<PlacedText>,
    literals: &mut Stack<PlacedLiteral>,
) -> Result<(), BuildFault>
    ensures { Gives (spec.timestamp (places.old, texts.old, literals.old)) result (places.new, texts.new, literals.new) }
{
    let text = texts.pop()?;
    let at = places.pop()?;
    literals.push(PlacedLiteral {
        literal: Literal::Timestamp(text.text),
        at,
    })
}

/// A number with its sign. None only where it is the least of 128 bits.
fn with_sign(sign: Sign, number: Number) -> Option<Number>
    ensures { MatchOption result ⊤ (λ n. n ≡ spec.with_sign sign number) }
{
    match sign {
        Sign::Plus => Some(number),
        Sign::Minus => Some(Number {
            units: number.units.checked_neg()?,
            scale: number.scale,
        }),
    }
}

pub fn signed_literal(
    places: &mut Stack<u32>,
    numbers: &mut Stack<PlacedNumber>,
    literals: &mut Stack<PlacedLiteral>,
    sign: Sign,
) -> Result<(), BuildFault>
    ensures { Gives (spec.signed_literal sign (places.old, numbers.old, literals.old)) result (places.new, numbers.new, literals.new) }
{
    let number = numbers.pop()?;
    let at = places.pop()?;
    let Some(number) = with_sign(sign, number.number) else {
        return Err(BuildFault::NoMemory);
    };
    literals.push(PlacedLiteral {
        literal: Literal::Number(number),
        at,
    })
}

// ---- types

pub fn decimal(
    numbers: &mut Stack<PlacedNumber>,
    types: &mut Stack<DataType>,
) -> Result<(), BuildFault>
    ensures { Gives (spec.decimal (numbers.old, types.old)) result (numbers.new, types.new) }
{
    let precision = numbers.pop()?;
    let precision = small_natural(precision.number.units)?;
    types.push(DataType::Decimal {
        precision,
        scale: 0,
    })
}

pub fn decimal_scale(
    numbers: &mut Stack<PlacedNumber>,
    types: &mut Stack<DataType>,
) -> Result<(), BuildFault>
    ensures { Gives (spec.decimal_scale (numbers.old, types.old)) result (numbers.new, types.new) }
{
    let scale = numbers.pop()?;
    let precision = numbers.pop()?;
    let scale = small_natural(scale.number.units)?;
    let precision = small_natural(precision.number.units)?;
    types.push(DataType::Decimal { precision, scale })
}

pub fn varchar(
    numbers: &mut Stack<PlacedNumber>,
    types: &mut Stack<DataType>,
) -> Result<(), BuildFault>
    ensures { Gives (spec.varchar (numbers.old, types.old)) result (numbers.new, types.new) }
{
    let length = numbers.pop()?;
    let length = short_natural(length.number.units)?;
    types.push(DataType::Varchar(length))
}
