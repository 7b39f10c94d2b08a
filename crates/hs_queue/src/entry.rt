// An entry of a session.
ghost use Rattle.std.specs.Prelude.{◌≡◌, ◌<◌, ◌^◌, true, length};
ghost use Rattle.hs_entries.specs.Entry.{is_session};

use hs_base::SessionNo;
use hs_values::{Chars, Name};

/// An entry of a session.
#[derive(Drop)]
pub struct Entry {
    /// Its number among the items, from 1.
    pub number: u64,
    /// Its session.
    pub session: SessionNo,
    /// The session's name, which stands directly before the first colon.
    pub name: Name,
    /// The statement: what stands behind the colon, up to and with the `;`.
    pub text: Chars,
    pub ghost named: { is_session name ≡ true },
    pub ghost short: { length text < 2 ^ 32 },
}
