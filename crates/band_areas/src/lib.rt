//! The areas of an output in its bands, from below, several bands computed at once where that is less work.
//!
//! The area in a band depends on rows beyond it where the deck grows or shrinks. Where these are more than the band's own,
//! each row would be looked at for many bands. So the area of a group of bands is computed at once and cut at the bands'
//! edges: a joined list cut to some rows is the joined list there. Numbers are half units.
#![tactic(auto)]

mod areas;
mod cuts;
mod groups;
mod parts;
mod rises;
mod stacks;
mod strips;
#[cfg(test)]
mod tests;

pub use areas::BandAreas;
pub use parts::Part;
pub use strips::Strips;
