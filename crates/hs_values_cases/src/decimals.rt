// Decimals that are read, printed and reckoned.
ghost use Rattle.hs_values.specs.Decimal.{IsDecimal};

use crate::written::{decimal_in, decimal_text, halves, word_of};
use hs_casetext::{CaseFault, push_line};
use hs_decimal::{add, div, mul, print, read, read_printed, rescale, sub};
use hs_values::{Chars, Dec, EvalFault};
use std::alloc::Global;

fn push_decimal(to: &mut String, answer: Result<Dec, EvalFault>) -> Result<(), CaseFault> {
    match answer {
        Ok(decimal) => {
            let text = decimal_text(*to.allocator(), decimal)?;
            Ok(push_line(to, text.as_str())?)
        }
        Err(fault) => Ok(push_line(to, word_of(fault)?)?),
    }
}

fn push_read(to: &mut String, found: Option<Dec>) -> Result<(), CaseFault> {
    match found {
        Some(decimal) => push_decimal(to, Ok(decimal)),
        None => Ok(push_line(to, "none")?),
    }
}

fn reckoned(kind: &str, a: Dec, b: Dec) -> Result<Dec, EvalFault>
    requires left { IsDecimal a }
    requires right { IsDecimal b }
{
    match kind {
        "add" => add(a, b),
        "subtract" => sub(a, b),
        "multiply" => mul(a, b),
        _ => div(a, b),
    }
}

/// A sum, a difference, a product or a quotient of two decimals.
pub fn reckon(kind: &str, text: &str, to: &mut String) -> Result<(), CaseFault> {
    let (left, right) = halves(text)?;
    let answer = reckoned(kind, decimal_in(left)?, decimal_in(right)?);
    push_decimal(to, answer)
}

/// A decimal at another scale.
pub fn rescale_one(text: &str, to: &mut String) -> Result<(), CaseFault> {
    let (decimal, scale) = halves(text)?;
    push_decimal(to, rescale(decimal_in(decimal)?, scale.parse::<u8>()?))
}

/// The decimal of a text.
pub fn read_one(text: &str, to: &mut String) -> Result<(), CaseFault> {
    push_read(to, read(text))
}

/// The decimal of a text that was printed.
pub fn read_printed_one(text: &str, to: &mut String) -> Result<(), CaseFault> {
    push_read(to, read_printed(text))
}

/// The text of a decimal, behind `=`, and the decimal that is read of it.
pub fn print_one(alloc: Global, text: &str, to: &mut String) -> Result<(), CaseFault> {
    let decimal = decimal_in(text)?;
    let mut out = Chars::from_text(alloc, "=")?;
    if let Err(fault) = print(decimal, &mut out) {
        return Ok(push_line(to, word_of(fault)?)?);
    }
    push_line(to, out.as_str())?;
    match out.as_str().strip_prefix('=') {
        Some(printed) => push_read(to, read_printed(printed)),
        None => Err(CaseFault::Unreadable),
    }
}
