// What a turn tells.
ghost use Rattle.std.specs.Prelude.{◌≡◌, ℕ, List, length};
ghost use Rattle.hs_schema.specs.Catalogue.{Text};
ghost use Rattle.hs_lines.specs.Told.{lines_of};

use crate::words::Words;
use hs_base::SessionNo;
use hs_values::Name;

/// What a turn tells. Items are numbered from 1.
#[derive(Drop)]
pub enum Told {
    /// Nothing.
    Nothing,
    /// Lines of an entry of a session.
    OfEntry {
        /// The entry's number among the items.
        number: u64,
        /// Its session.
        session: SessionNo,
        /// What each line says of it.
        words: Vec<Words>,
    },
    /// An item that is no entry is refused.
    Bad {
        /// Its number among the items.
        number: u64,
    },
    /// An entry that is too long is refused.
    TooLong {
        /// Its number among the items.
        number: u64,
    },
    /// An entry whose session would be the 65th is refused.
    TooManySessions {
        /// Its number among the items.
        number: u64,
        /// The name of that session.
        session: Name,
    },
    /// The transaction of a session is rolled back, as the input has ended.
    EndOf(SessionNo),
}

impl Told {
    /// How many lines it is. Takes no memory.
    pub fn len(&self) -> usize
        ensures { (names : List Text) → result ≡ length (lines_of names self.now) }
    {
        match self {
            Told::Nothing => 0,
            Told::OfEntry { words, .. } => words.len(),
            Told::Bad { .. }
            | Told::TooLong { .. }
            | Told::TooManySessions { .. }
            | Told::EndOf(_) => 1,
        }
    }
}
