//! The files of stripes: the shots of a list, cut along the lines of fields, written into a shot file for each stripe.
//! It is a crate of its own for the time of its proofs: only `mdp_job` calls it, and a change there doesn't prove them
//! again.
#![tactic(auto)]

mod chain;
mod choice;
mod chosen;
mod filling;
mod linking;
mod name;
mod places;
mod stripe_file;
mod stripe_files;
mod sums;
#[cfg(test)]
mod tests;

pub use stripe_files::write_stripes;
pub use sums::{StripeSums, Stripes};
