//! The area of an output of a deck in a band of rows.
//!
//! A plan holds a deck and the pieces of a layout's shapes. The area of an output in a band comes of the areas of the
//! definitions that the output uses, each computed once in the rows that it needs. Numbers are half units.
#![tactic(auto)]

mod bands;
mod cutting;
mod extents;
mod kept;
mod layers;
mod lists;
mod mirroring;
mod moving;
mod needs;
mod own_layers;
mod piles;
mod plans;
mod sizing;
mod steps;
mod windows;

pub use bands::{first_band, next_band};
pub use cutting::cut_parts;
pub use plans::Plan;
