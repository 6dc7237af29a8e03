//! What a person is told of a command that has ended: what its line on standard output means, where the fault is, and what
//! to do about it; and what one would want to know of a run that went well.
//!
//! Files are read again where a place in them is needed, through a depot that is only read. Where they can't be, or memory
//! runs out, less is told.
#![tactic(auto)]

mod advice;
mod deck;
mod deck_advice;
mod deck_forms;
mod deck_lines;
mod ended;
mod file_advice;
mod gdsii;
mod heard;
mod hidden;
mod layout_advice;
mod missing;
mod names;
mod note;
mod number;
mod oasis;
mod oasis_advice;
mod pieces;
mod reached;
mod reading;
mod shot_advice;
mod shots;
mod system;
mod telling;
#[cfg(test)]
mod tests;
mod tree;
mod units;
mod walk;
mod warning;
mod words;

pub use ended::{Ended, WITHOUT_WORDS, explain};
pub use heard::HeardDepot;
