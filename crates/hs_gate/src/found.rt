// What stands at the place of a group.
ghost use Rattle.std.specs.Prelude.{◌≡◌, ℕ, ◌+◌, ◌<◌, ◌≤◌, min, List, length, take};

/// The place of the first group.
pub const FIRST_PLACE: u64 = 10;

/// What stands at the place of a group.
#[derive(Clone, Copy, Debug, PartialEq, Eq)]
pub enum Found {
    /// A gate that isn't open, which ends the groups.
    Closed,
    /// An open gate with a whole group behind it, whose payload has this length.
    Group(u64),
    /// An open gate without a whole group.
    Broken,
}

ghost use Rattle.hs_gate.specs.Scan.{found_in, FitsIn};

/// Looks at the place of a group: the next byte is its gate, and `behind` bytes stand behind that, of which
/// the first 8 are needed.
#[inline]
pub fn look(bytes: &[u8], behind: u64) -> Found
    requires head { min 8 behind < length bytes.now }
    ensures fits { FitsIn behind result }
    ensures found { (whole : List ℕ) → length whole ≡ behind + 1 → bytes.now ≡ take (length bytes.now) whole → result ≡ found_in whole }
{
    if bytes[0] != 1 {
        return Found::Closed;
    }
    if behind < 8 {
        return Found::Broken;
    }
    let size = number(&bytes[1..]);
    if size < behind - 8 {
        Found::Group(size)
    } else {
        Found::Broken
    }
}

ghost use Rattle.hs_gate.specs.Groups.{number_of};

/// The number that the first 8 bytes spell, big-endian.
#[inline]
pub fn number(bytes: &[u8]) -> u64
    requires { 8 ≤ length bytes.now }
    ensures { result ≡ number_of bytes.now }
{
    match bytes.first_chunk::<8>() {
        Some(first) => u64::from_be_bytes(*first),
        None => 0,
    }
}
