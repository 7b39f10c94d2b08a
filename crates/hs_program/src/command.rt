// The command line.
ghost use Rattle.std.specs.Prelude.{◌≡◌};
ghost use Rattle.std.specs.Option.{option_copied};
ghost use Rattle.hs_program.specs.Command.{database_of, is_database};

use hs_values::{Chars, Words};

/// The name of the database, where the words are those of the command: the program's own name, and the name of
/// a database.
pub fn database_of(words: &Words) -> Option<&Chars>
    ensures { option_copied result ≡ database_of words.now }
{
    match words.as_slice() {
        [_, database] if is_database(database) => Some(database),
        _ => None,
    }
}

fn is_database(word: &Chars) -> bool
    ensures { result ≡ is_database word.now }
{
    match word.as_str().as_bytes() {
        [first, ..] => *first != b'-',
        [] => false,
    }
}
