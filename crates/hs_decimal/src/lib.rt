//! Decimal numbers of at most 38 digits: exact sums, differences and products, quotients that are
//! cut toward zero, and their text.
#![tactic(auto)]

mod arithmetic;
mod division;
mod printed;
mod printing;
mod reading;

pub use arithmetic::{add, mul, sub};
pub use division::div;
pub use hs_values::rescale;
pub use printed::read_printed;
pub use printing::print;
pub use reading::read;
