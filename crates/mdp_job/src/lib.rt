//! All that the program does: `run` takes the words of a command, reads from a depot and writes to it. It makes the
//! shot files of a deck's outputs and checks them, prints how dense the outputs are, and lists, packs and splits shot
//! files.
#![tactic(auto)]

mod checking;
mod ending;
mod faults;
mod files;
mod fracturing;
mod generating;
mod job;
mod listing;
mod mapping;
mod packing;
mod plain_files;
mod reading;
mod reporting;
mod splitting;
mod stripe_lines;

pub use job::{run, run_surely};
pub use job_input::{DeckFault, LayoutFault};
pub use job_report::{CheckFault, Status};
