//! What the steps of `hs_builder` have in common: they make lawful parts of lawful ones (`specs/LawfulParts.antt`). Nothing is
//! computed.
//!
//! `proofs` has what the proofs of `hs_parser` cite beside that: how many parts of each kind a step takes and puts
//! (`Effects.antt`), and that a part's depth is its tree's and no less than that of what was taken (`CoveringMarks.antt`,
//! `Marked.antt`).
#![tactic(auto)]

mod laws;

pub use laws::steps_make_lawful_parts;
