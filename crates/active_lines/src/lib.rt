//! The active lines of a sweep, from left to right, with a place among them that goes along.
#![tactic(auto)]

mod chunk;
mod editing;
mod item;
mod laws;
mod leaning;
mod lines;
mod looking;
mod pages;
mod place;
mod slices;

pub use item::{ActiveLine, Opened, Windings};
pub use laws::leaning_law;
pub use lines::ActiveLines;
