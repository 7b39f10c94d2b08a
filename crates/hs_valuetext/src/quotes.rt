// Texts between quotes.
ghost use Rattle.std.specs.Prelude.{◌≡◌, ◌++◌, ◌<◌, OnOk, IfOk, string_bytes};
ghost use Rattle.hs_valuetext.specs.Finding.{Finds};
ghost use Rattle.hs_valuetext.specs.Quotes.{doubled, quoted, Closes, IsQuoted};

use hs_values::Chars;
use std::alloc::{AllocError, Global};

/// Adds a text with each quote in it twice.
fn push_doubled(quote: char, text: &str, out: &mut Chars) -> Result<(), AllocError>
    requires { quote < 128 }
    ensures { OnOk result (out.new ≡ out.old ++ doubled quote text.now) }
{
    let mut rest = text;
    while let Some((front, behind)) = rest.split_once(quote) {
        out.push_text(front)?;
        out.push(quote)?;
        out.push(quote)?;
        rest = behind;
    }
    out.push_text(rest)
}

/// Adds a text between quotes. After an `Err`, which is want of memory, a part of it may be there.
pub fn push_quoted(quote: char, text: &str, out: &mut Chars) -> Result<(), AllocError>
    requires { quote < 128 }
    ensures { OnOk result (out.new ≡ out.old ++ quoted quote text.now) }
{
    out.push(quote)?;
    push_doubled(quote, text, out)?;
    out.push(quote)
}

/// The content up to the closing quote, and what is behind it.
fn read_doubled<'a>(
    alloc: Global,
    quote: char,
    text: &'a str,
) -> Result<Option<(String, &'a str)>, AllocError>
    requires { quote < 128 }
    ensures { IfOk result (λ found. Finds string_bytes (Closes quote text.now) found) }
{
    let mut content = String::new(alloc);
    let mut rest = text;
    while let Some((front, behind)) = rest.split_once(quote) {
        content.push_str(front)?;
        match behind.strip_prefix(quote) {
            None => return Ok(Some((content, behind))),
            Some(more) => {
                content.push(quote)?;
                rest = more;
            }
        }
    }
    Ok(None)
}

/// The content between the quotes at the front of a text, and what is behind them.
pub fn read_quoted<'a>(
    alloc: Global,
    quote: char,
    text: &'a str,
) -> Result<Option<(String, &'a str)>, AllocError>
    requires { quote < 128 }
    ensures { IfOk result (λ found. Finds string_bytes (IsQuoted quote text.now) found) }
{
    match text.strip_prefix(quote) {
        Some(content) => read_doubled(alloc, quote, content),
        None => Ok(None),
    }
}
