//! Sizing by a rectangle: growing and shrinking.
//!
//! A trapezoid that grows gives a ring, and the edges of the rings of a whole list are swept. A trapezoid of a joined list
//! that touches no other one of it shrinks by itself. A tile of it is left exactly where all tiles near to it are in that
//! trapezoid: on the way to any tile elsewhere lies one that touches it, which is in none. All lengths are half units.
#![tactic(auto)]

mod growing;
mod laws;
mod levels;
mod parting;
mod pieces;
mod rings;
mod shrinking;
#[cfg(test)]
mod tests;

pub use growing::Grown;
pub use laws::{near_law, ring_laws};
pub use parting::{Parted, shrink_lone};
pub use pieces::put_grown;
pub use rings::grown;
