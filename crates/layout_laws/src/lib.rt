//! Laws of what is read: nothing falls into a gap of the definitions.
#![tactic(auto)]

mod files;
mod trees;

pub use files::oasis_law;
pub use trees::tree_law;
