//! The outside of the program: files by name, and what it prints. Files in memory, real files, whole reads and writes, and
//! what is printed piece by piece.
#![tactic(auto)]

mod buffer;
mod disk;
mod fault;
mod filing;
mod keeper;
mod memory;
mod outside;
mod printing;
mod real;
mod store;
mod sure;
mod system;
mod whole;

pub use buffer::{BUFFER_SIZE, Buffer};
pub use fault::{FaultCause, SystemFault};
pub use memory::MemDepot;
pub use outside::{Depot, DepotBad, Phase, Progress};
pub use printing::{flush, put_piece};
pub use real::FileDepot;
pub use sure::{SureDepot, nothing_fails};
pub use whole::{Refused, make_file, read_all, say_whole, write_whole};

#[cfg(test)]
mod tests;
