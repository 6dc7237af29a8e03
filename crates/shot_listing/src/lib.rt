//! The listing of a shot file, printed on a depot: its unit, its layer and datatype, a line of numbers for each shot, and
//! the sums.
//!
//! What is printed goes through a buffer on the stack. Nothing here takes memory.
#![tactic(auto)]

mod lines;
mod room;
mod saying;
mod shots;
#[cfg(test)]
mod tests;

pub use saying::{MOST_SHOTS, say_listing};
