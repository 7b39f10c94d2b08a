// What is told of a text that is no statement, and of a statement that isn't bound.
ghost use Rattle.std.specs.Prelude.{◌≡◌, ◌≢◌, ◌+◌, ◌++◌, IfOk};
ghost use Rattle.std.specs.Fmt.{decimal};
ghost use Rattle.hs_lexer.specs.declared.fault.LexFault.TheVariants as lex;
ghost use Rattle.hs_nametext.specs.Names.{name_text};
ghost use Rattle.hs_parser.specs.declared.syntax_fault.SyntaxFault.TheVariants as syntax;
ghost use Rattle.hs_plan.specs.declared.fault.BindFault.TheVariants as bind;
ghost use Rattle.hs_requests.specs.Words as spec;

use hs_base::NoMemory;
use hs_lexer::LexFault;
use hs_nametext::print_name;
use hs_parser::SyntaxFault;
use hs_plan::{BindFault, Which};
use hs_values::{Chars, Name};
use itoa::Buffer;
use std::alloc::Global;

// Words with a place of the entry behind them: one of its statement, which stands at `at`.
fn at_place(alloc: Global, words: &str, at: u32, place: u32) -> Result<Chars, NoMemory>
    ensures { IfOk result (λ text. text ≡ words.now ++ decimal (at + place)) }
{
    let mut text = Chars::from_text(alloc, words)?;
    let mut buffer = Buffer::new();
    text.push_text(buffer.format(u64::from(at) + u64::from(place)))?;
    Ok(text)
}

// Words with a name behind them.
fn with_name(alloc: Global, words: &str, name: &Name) -> Result<Chars, NoMemory>
    ensures { IfOk result (λ text. text ≡ words.now ++ name_text name.now) }
{
    let mut text = Chars::from_text(alloc, words)?;
    print_name(name.as_str(), &mut text)?;
    Ok(text)
}

fn plain(alloc: Global, words: &str) -> Result<Chars, NoMemory>
    ensures { IfOk result (λ text. text ≡ words.now) }
{
    Ok(Chars::from_text(alloc, words)?)
}

/// Why a text has no tokens, where it stands at `at` in its entry.
pub(crate) fn token_words(alloc: Global, at: u32, fault: LexFault) -> Result<Chars, NoMemory>
    ensures told { IfOk result (λ text. text ≡ spec.token_words at fault) }
    ensures some { IfOk result (λ text. fault ≢ lex.NoMemory) }
{
    match fault {
        LexFault::OpenQuote(place) => at_place(alloc, "syntax at ", at, place),
        LexFault::BadChar(place) => at_place(alloc, "syntax at ", at, place),
        LexFault::WideNumber(place) => at_place(alloc, "syntax at ", at, place),
        LexFault::NoMemory => Err(NoMemory),
    }
}

/// Why a text's tokens are no statement, where it stands at `at` in its entry.
pub(crate) fn grammar_words(alloc: Global, at: u32, fault: SyntaxFault) -> Result<Chars, NoMemory>
    ensures told { IfOk result (λ text. text ≡ spec.grammar_words at fault) }
    ensures some { IfOk result (λ text. fault ≢ syntax.NoMemory) }
{
    match fault {
        SyntaxFault::At(place) => at_place(alloc, "syntax at ", at, place),
        SyntaxFault::NotOffered(place) => at_place(alloc, "not offered at ", at, place),
        SyntaxFault::Depth => plain(alloc, "limit depth"),
        SyntaxFault::NoMemory => Err(NoMemory),
    }
}

/// That what stands at this place isn't offered.
pub(crate) fn not_offered(alloc: Global, at: u32) -> Result<Chars, NoMemory>
    ensures { IfOk result (λ text. text ≡ spec.not_offered_at at) }
{
    at_place(alloc, "not offered at ", at, 0)
}

fn limit_words(alloc: Global, which: Which) -> Result<Chars, NoMemory>
    ensures { IfOk result (λ text. text ≡ spec.limit_words which) }
{
    match which {
        Which::Tables => plain(alloc, "limit tables"),
        Which::Columns => plain(alloc, "limit columns"),
        Which::Constraints => plain(alloc, "limit constraints"),
    }
}

/// Why a statement has no meaning over a catalogue, where its text stands at `at` in its entry.
pub(crate) fn bind_words(alloc: Global, at: u32, fault: &BindFault) -> Result<Chars, NoMemory>
    ensures told { IfOk result (λ text. text ≡ spec.bind_words at fault.now) }
    ensures some { IfOk result (λ text. fault.now ≢ bind.NoMemory) }
{
    match fault {
        BindFault::NoSuch(name) => with_name(alloc, "no such ", name),
        BindFault::Exists(name) => with_name(alloc, "exists ", name),
        BindFault::Ambiguous(name) => with_name(alloc, "ambiguous ", name),
        BindFault::Types(place) => at_place(alloc, "types at ", at, *place),
        BindFault::Count => plain(alloc, "count"),
        BindFault::Limit(which) => limit_words(alloc, *which),
        BindFault::NoMemory => Err(NoMemory),
    }
}
