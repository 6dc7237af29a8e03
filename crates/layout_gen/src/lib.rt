//! A generated layout: a short GDSII file whose arrays make a large layout. It serves tests and measurements.
//!
//! Nothing here takes memory of its own.
#![tactic(auto)]

mod cells;
mod file;
mod records;
#[cfg(test)]
mod tests;

pub use file::generate;
