//! Which commits an output acknowledges, of which the contracts of a run speak; and machines of one turn for each item, as
//! definitions: lines, replies, turns, a transcript. It knows nothing of hosts and takes no memory.
#![tactic(auto)]

mod laws;
mod refusal;
mod reply;

pub use laws::{
    a_front_acknowledges_no_more, all_is_told_in_as_many_turns_as_the_weight,
    lines_acknowledge_what_they_say, lines_end_once, rows_are_no_replies,
    runs_acknowledge_what_they_made, runs_end, runs_go_on_turn_by_turn,
};
pub use refusal::Refusal;
pub use reply::Reply;
