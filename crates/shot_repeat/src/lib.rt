//! Packed shot files: the shots of a shot file with modal fields and repetitions, written and read back.
#![tactic(auto)]

mod fields;
mod giving;
mod laws;
mod looking;
mod modal;
mod packed_file;
mod packing;
mod reading;
mod record;
mod refusing;
mod runs;

pub use laws::{packing_laws, reading_laws};
pub use packed_file::read_packed;
pub use packing::pack_shots;
pub use refusing::PackBad;
