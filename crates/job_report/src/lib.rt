//! How a command ends, and what is printed of it: the report of one that was done, and the line of one that wasn't. It
//! is a crate of its own since two crates use it: `mdp_job` ends and prints by it, and `explain` tells a person what
//! its statuses mean.
//!
//! A line is a few pieces of text and numbers. What is printed goes through a buffer on the stack. Nothing here takes
//! memory.
#![tactic(auto)]

mod decks;
mod ending;
mod faults;
mod hexadecimal;
mod layouts;
mod oasis;
mod pieces;
mod report;
mod saying;
mod shot_lines;
mod status;
#[cfg(test)]
mod tests;
mod trees;

pub use decks::deck_line;
pub use ending::{Ending, say_line};
pub use faults::CheckFault;
pub use layouts::gds_line;
pub use oasis::oas_line;
pub use pieces::{Line, Piece};
pub use report::say_report;
pub use saying::{put_pieces, say_pieces};
pub use status::Status;
pub use trees::tree_line;
