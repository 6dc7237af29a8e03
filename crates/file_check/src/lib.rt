//! The shot files of a deck's outputs, checked: whoever made them, Exact means exact. The certificate of an output is
//! the verdict on whether shots cover the area that a deck denotes exactly.
//!
//! It isn't part of `shot_checker`, which judges a list of shots by a list of trapezoids and knows no deck or file:
//! this crate reads files from a depot, and judges their shots by the areas of a deck, which it computes band by band.
//!
//! Numbers are half units.
#![tactic(auto)]

mod bands;
#[cfg(test)]
mod certificate_tests;
mod certificates;
mod checking;
mod faults;
mod front;
mod judging;
mod outside;
mod progress;
#[cfg(test)]
mod tests;

pub use certificates::check_output;
pub use checking::check_files;
pub use faults::{CheckBad, CheckFault};
