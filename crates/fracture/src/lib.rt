//! The cutting of trapezoids into shots within the limits of a mask writer.
//!
//! All numbers are half units. Nothing here takes memory.
#![tactic(auto)]

mod cuts;
mod laws;
mod parts;
#[cfg(test)]
mod tests;

pub use cuts::Cuts;
pub use laws::cut_laws;
