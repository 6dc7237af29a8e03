//! Set operations on areas: joined lists of the tiles of two lists, of edges, and of a shape.
//!
//! Numbers are half units.
#![tactic(auto)]

mod ascents;
mod climbs;
mod lone;
mod operations;
mod outline;
#[cfg(test)]
mod tests;
mod unions;

pub use climbs::monotone_pieces;
pub use lone::lone_piece;
pub use operations::{Op, combine, combine_edges, combine_edges_within};
pub use outline::pieces;
pub use unions::{left_over_within, unite, unite_within};
