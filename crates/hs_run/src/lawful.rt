// Whether an item is one that turns may take.
ghost use Rattle.std.specs.Prelude.{◌≡◌};
ghost use Rattle.std.specs.List.{list_all};
ghost use Rattle.hs_entries.specs.Entry.{is_name_byte as name_byte, is_session as session};
ghost use Rattle.hs_run.specs.Items.{is_taken};

use hs_entries::{Item, MOST_BYTES};

/// How many bytes the name of a session has at most.
const MOST_NAME_BYTES: usize = 32;

/// Whether turns may take an item: an entry is of a session with a name, and of at most 65,536 bytes. Each that a reader gives
/// is, which it says only where contracts may speak of the input's bytes.
pub fn may_be_taken(item: &Item) -> bool
    ensures { result ≡ is_taken item.now }
{
    match item {
        Item::Entry { session, text, .. } => {
            is_session(session.as_str().as_bytes()) && text.as_str().len() <= MOST_BYTES
        }
        Item::Bad { .. } => true,
        Item::TooLong { .. } => true,
        Item::End => false,
    }
}

// A letter, and then up to 31 letters, digits and `_`.
fn is_session(name: &[u8]) -> bool
    ensures { result ≡ session name.now }
{
    match name {
        [first, rest @ ..] => {
            first.is_ascii_alphabetic() && rest.len() < MOST_NAME_BYTES && are_name_bytes(rest)
        }
        [] => false,
    }
}

fn are_name_bytes(bytes: &[u8]) -> bool
    ensures { result ≡ list_all name_byte bytes.now }
{
    bytes.iter().all(|b| is_name_byte(*b))
}

fn is_name_byte(byte: u8) -> bool
    ensures { result ≡ name_byte byte }
{
    byte.is_ascii_alphanumeric() || byte == b'_'
}
