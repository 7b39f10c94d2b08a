//! What a bound data statement comes to over rows, exactly as SQL's language says: what it gives, what it touches, the
//! lines of its rows, its reply, and whether its changes are kept.
#![tactic(auto)]

mod counting;
mod given;
mod giving;
mod lawful;
mod lines;
mod replies;
mod settled;
mod touching;

pub use given::Given;
pub use giving::give;
pub use lawful::are_lawful;
pub use lines::{answered_rows, print_row_line};
pub use replies::{is_kept, print_reply};
pub use touching::touched;
