//! The density of a deck's outputs: how many triangles of an output's area each window has, printed as a table for each
//! output. It is a crate of its own for the time of its proofs: but for tests only `mdp_job` calls it, and a change
//! there doesn't prove them again.
//!
//! All numbers are half units.
#![tactic(auto)]

mod areas;
mod entries;
mod laws;
mod lines;
mod maps;
mod saying;
mod strips;
mod tabled;
mod tables;

pub use entries::{Entry, Totals};
pub use laws::density_laws;
pub use tables::say_densities;
