//! The certificate of a list of shots: whether they fit the limits and cover an area exactly, wherever they come from.
//!
//! Numbers are half units.
#![tactic(auto)]

mod limits;
#[cfg(test)]
mod tests;
mod verdicts;

pub use limits::too_large;
pub use verdicts::{Fault, Verdict, check, first_fault};
