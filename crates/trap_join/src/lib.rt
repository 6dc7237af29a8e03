//! Joining upward: the runs of a scan's slabs as maximal trapezoids.
//!
//! Numbers are half units.
#![tactic(auto)]

mod front;
mod join;
mod laws;
mod merge;
#[cfg(test)]
mod tests;

pub use join::Join;
pub use laws::maximal_law;
