//! Fields of a mask writer: shots cut along the lines of square fields, and the stripes that a list of shots meets.
//!
//! All numbers are half units. Nothing here takes memory.
#![tactic(auto)]

mod fields;
mod in_hand;
mod laws;
mod looks;
mod part;
mod parts;
mod pieces;
mod stripe;

pub use fields::Fields;
pub use laws::field_laws;
pub use looks::{FIELD_REACH, stripes, too_wide};
pub use pieces::Pieces;
