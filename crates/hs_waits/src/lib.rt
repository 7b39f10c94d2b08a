//! Which sessions wait for which: recorded waits, in which nobody waits for himself by way of others.
#![tactic(auto)]

mod leading;
mod wait_graph;

pub use wait_graph::WaitGraph;
