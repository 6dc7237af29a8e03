//! What the commands `fracture` and `check` read: the deck and the layout that two words name, read from a depot and
//! accepted, or the first refusal with its cause. It is a crate of its own since three crates use it: `mdp_job` and
//! `explain` read by it, and `job_report` prints the line of each of its refusals.
//!
//! The deck is read first, then the layout, and then the tree of the layout's cells below the deck's top cell.
#![tactic(auto)]

mod decks;
mod formats;
mod layouts;
mod reading;
mod refusing;
#[cfg(test)]
mod tests;

pub use formats::Format;
pub use reading::{Input, read_input};
pub use refusing::{DeckFault, InputBad, LayoutFault};
