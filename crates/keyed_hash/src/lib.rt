//! Hash tables whose hash depends on all that the file holds.
//!
//! A hash with a fixed seed can be worked out before a file is made, and so can names that all have one hash. Here the
//! seed is what SipHash-1-3 makes of the file, or of all names that are to be entered: whoever changes a name changes the
//! hashes of all. Nothing here takes memory.
#![tactic(auto)]

mod state;
#[cfg(test)]
mod tests;

pub use state::KeyedState;
