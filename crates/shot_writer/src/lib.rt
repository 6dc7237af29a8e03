//! The one text of a shot file, written through a buffer: its head, the record of each shot, and its end.
//!
//! Nothing here takes memory.
#![tactic(auto)]

mod buffer;
mod laws;
mod parts;
mod pouring;
#[cfg(test)]
mod tests;
mod writer;

pub use buffer::{flush, put_bytes};
pub use laws::writing_law;
pub use parts::{Head, Sums, encode, triangles_in};
pub use writer::ShotWriter;
