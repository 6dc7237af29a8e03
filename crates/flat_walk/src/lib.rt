//! The placed pieces of a layout: the pieces of each shape of a tree of cells, where the flattened layout has them.
//!
//! Each shape is cut into pieces once, by its cell. A walk gives the images of the pieces that have rows in a window,
//! in the order of the flattened layout. Lengths are half units.
#![tactic(auto)]

mod blocks;
mod boxes;
mod cell_lists;
mod codes;
mod entries;
mod entry_lists;
mod kept_pieces;
mod levels;
mod owned;
mod piece_lists;
mod rises;
mod rows;
mod scenes;
mod short_boxes;
mod stores;
mod tables;
#[cfg(test)]
mod tests;
mod turning;
mod walks;

pub use boxes::Boxes;
pub use tables::Parts;
pub use walks::Walk;
