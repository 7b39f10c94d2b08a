//! Rows in bytes, pages of rows, and pages held in memory, against tables and worked out by hand: tests alone.
#![tactic(auto)]

#[cfg(test)]
mod frames;
#[cfg(test)]
mod pages;
#[cfg(test)]
mod rows;
