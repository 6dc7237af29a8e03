//! Tests of what the sweep and the cut along fields hand up.
//!
//! They call public items alone, so they are proved by the contracts of those crates, which aren't proved once more for them.
#![tactic(auto)]

#[cfg(test)]
mod fields;
#[cfg(test)]
mod lines;
#[cfg(test)]
mod plane_sweeps;
#[cfg(test)]
mod scans;
