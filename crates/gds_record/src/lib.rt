//! Records of a GDSII stream file: the record at an offset or what is wrong there, and the numbers
//! that records hold.
#![tactic(auto)]

mod kinds;
mod laws;
mod numbers;
mod reals;
mod records;

pub use kinds::Kind;
pub use laws::records_law;
pub use numbers::{int2, int4, int8, unsigned2};
pub use reals::{real_whole, unit_agrees};
pub use records::{Framing, Record, record_at, record_of_kind};

#[cfg(test)]
mod tests;
