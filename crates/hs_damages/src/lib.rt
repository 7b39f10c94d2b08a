//! What is wrong with the files of a database, and else which slot is its current one and what its files have.
//!
//! There is one order of damages (`specs/Sighting.antt`, `specs/Damages.antt`). First come the headers: a log or a backup that is
//! empty beside files that are made behind it; then, where both are born, headers from which no current slot can be told.
//! Then come the groups, those of the current slot, of a backup that counts and of a log that counts: the first that is
//! broken, missing or may not stand there. What payloads mean is said by a `Judge`, who takes them one after another.
//!
//! Files without damage stand for nothing as yet, or for one point of `hs_slots` (`files_without_damage_are_read`).
#![tactic(auto)]

mod damage;
mod examining;
mod header;
mod headers;
mod judge;
mod judging;
mod laws;
mod part;

pub use damage::{Damage, Stop};
pub use examining::{Sight, examine};
pub use header::Header;
pub use headers::{Current, Headers};
pub use judge::Judge;
pub use laws::files_without_damage_are_read;
pub use part::Part;
