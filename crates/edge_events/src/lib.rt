//! The begins and ends of edges as numbers in the order of a sweep.
//!
//! An event takes 16 bytes: its row, and its place in it. Numbers in order are events by ascending Y, those of one Y from left
//! to right, and those of one point by the way of their lines, as the row above the point has them.
#![tactic(auto)]

mod clipping;
mod dealing;
mod number;
mod sorting;
mod source;

pub use number::EventNumber;
pub use source::sorted_events;
