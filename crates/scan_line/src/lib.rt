//! The scan line: edges swept upward from stop to stop, and the runs of tiles that a rule takes between them.
//!
//! Numbers are half units.
#![tactic(auto)]

mod bucket_sort;
mod clipped;
mod edges_of;
mod filling;
mod laws;
mod order;
mod rule;
mod runs;
mod scan;
mod starts;
mod stops;
mod sums;
mod sweep;

pub use clipped::Clipped;
pub use edges_of::EdgesOf;
pub use laws::{clipped_laws, outline_laws};
pub use rule::Rule;
pub use runs::{Run, Slab};
pub use scan::Scan;
