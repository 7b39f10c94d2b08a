// The sentences of SQL.
ghost use Rattle.std.specs.Prelude.{◌≡◌, IfOk, MatchResult};
ghost use Rattle.hs_grammar.specs.Grammar.{tokens_of};
ghost use Rattle.hs_grammar.specs.Answer.{Only, Faulty};
ghost use Rattle.hs_syntax.specs.Meant.{IsMeantBy};
ghost use Rattle.hs_syntax.specs.Sql.{sql};
ghost use Rattle.hs_syntax.specs.Statement.{IsFaultOf};

use crate::table::{PRODUCTIONS, ROWS, SYMBOLS, VIEWS};
use hs_grammar::{Fault, Item, Tables, recognise};
use std::alloc::Global;

/// The only sentence of the grammar with tokens of these classes, as its items: the classes with the steps that build the
/// tree between them. There is one exactly where the tokens are a statement of the literal grammar, and it is the reading that
/// is meant: where that grammar reads the tokens twice, a body in two pairs of parentheses or more is one body, and in those of
/// IN a query and no list.
///
/// `At` has the first token, by its index, with which no statement begins any more, or the number of tokens where more of
/// them are missing. `NotOffered` has it where that token stands there in the literal grammar as one that isn't offered.
/// `NoMemory` comes only where memory is refused.
#[tactic(auto, unfolding(crate::specs::Sql::sql))]
pub fn recognised(alloc: Global, classes: &[u8]) -> Result<Vec<Item>, Fault>
    ensures tokens { IfOk result (λ items. tokens_of items.items ≡ classes.now) }
    ensures statement { MatchResult result (λ items. IsMeantBy classes.now items.items) (λ fault. IsFaultOf classes.now fault) }
    ensures table { MatchResult result (λ items. Only sql classes.now items.items) (λ fault. Faulty sql classes.now fault) }
{
    let tables = Tables {
        rows: &ROWS,
        productions: &PRODUCTIONS,
        symbols: &SYMBOLS,
        views: &VIEWS,
    };
    recognise(alloc, &tables, classes)
}
