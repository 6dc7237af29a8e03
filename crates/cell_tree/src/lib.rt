//! The tree of a layout's cells below its top cell.
//!
//! A layout is accepted where each cell that can be reached places cells that are there, no cell comes to place itself,
//! chains of placements and what they enlarge by are limited, fixed shapes aren't enlarged, and the flattened layout is
//! of limited extent and number. Cells are numbered by their places in the layout. Lengths are half units.
#![tactic(auto)]

mod boxes;
mod crowds;
mod extents;
mod factors;
mod faults;
mod heights;
mod hulls;
mod linked;
mod orders;
mod spots;
#[cfg(test)]
mod tests;
mod trees;
mod unknowns;

pub use faults::TreeBad;
pub use trees::{Tree, resolve};
