//! How many tiles of trapezoids lie in a frame, and in each window of a row of windows.
//!
//! All numbers are half units.
#![tactic(auto)]

mod counts;
mod laws;
mod rows;
#[cfg(test)]
mod tests;
mod tiles;

pub use counts::Counted;
pub use laws::count_laws;
pub use rows::MapRow;
pub use tiles::tiles_in;
