//! Tests of the areas of decks, of density tables, and of whole jobs.
//!
//! They call public items alone, so they are proved by the contracts of those crates, which aren't proved once more for
//! them.
#![tactic(auto)]

#[cfg(test)]
mod areas;
#[cfg(test)]
mod jobs;
#[cfg(test)]
mod tables;
