//! A depot that shows on a terminal how far another depot is: what it does with which file, how many of an output's rows and
//! how many bytes are done, for how long, and how much longer it takes.
//!
//! What it answers, tells and counts is what the other one does. The line takes no memory, and where nothing is to be
//! shown nothing is asked of the system.
#![tactic(auto)]

mod file;
mod frame;
mod ledger;
mod line;
mod pace;
mod peak;
mod screen;
mod shown;
mod tally;
#[cfg(test)]
mod tests;
mod texts;
mod thick;
mod times;
mod width;

pub use screen::Screen;
pub use shown::ShownDepot;
pub use width::columns;
