//! The geometry that everything rests on: the half grid's triangles, the lines of its four directions,
//! and the trapezoids between two such lines.
//!
//! All numbers are half units: a layout coordinate of `n` grid steps is `2n`. Nothing here takes memory.
#![tactic(auto)]

mod amount;
mod border;
mod extent;
mod laws;
mod meet;
mod neighbours;
mod outline;
mod plane;
mod ring;
mod rows;
mod shot;
mod sums;
#[cfg(test)]
mod tests;

pub use amount::size_of;
pub use border::{Edge, Operand};
pub use extent::{Frame, Window};
pub use laws::{edge_laws, joined_law, line_laws, row_laws};
pub use meet::meeting_y;
pub use neighbours::near;
pub use outline::{line_through, winding_at};
pub use plane::{Line, Point, Side, Strips, Tile};
pub use ring::Quad;
pub use rows::{diagonal_of, line_at, number_of, place_of, strips, tile_at, x_at};
pub use shot::{Limits, REACH, Trap, covers, fits};
