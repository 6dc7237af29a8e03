//! Tests of what the crates that read and write files hand up: layouts, GDSII and OASIS files, records and shapes of
//! the latter, decks and packed files.
//!
//! They call public items alone, so they are proved by the contracts of those crates, which aren't proved once more for them.
#![tactic(auto)]

#[cfg(test)]
mod decks;
#[cfg(test)]
mod gdsii_files;
#[cfg(test)]
mod layouts;
#[cfg(test)]
mod oasis_files;
#[cfg(test)]
mod oasis_records;
#[cfg(test)]
mod oasis_shapes;
#[cfg(test)]
mod packed_files;
