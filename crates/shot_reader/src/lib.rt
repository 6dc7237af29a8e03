//! The shots of a shot file, read back from its one text. Any other bytes are refused.
#![tactic(auto)]

mod corners;
mod fields;
mod head;
mod laws;
mod reading;
mod refusing;
#[cfg(test)]
mod tests;

pub use corners::trap_of;
pub use fields::{delta_at, end_where, has_left, has_right, past_end, signed_at, unsigned_at};
pub use head::{head_of, longest_head};
pub use laws::reading_laws;
pub use reading::{ShotFile, ends_at, read_shots};
pub use refusing::ShotBad;
