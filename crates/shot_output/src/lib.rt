//! The outputs of a deck, each written into its file band by band: the shots of a band are written before the next band
//! is computed.
//!
//! All numbers are half units.
#![tactic(auto)]

mod bands;
mod laws;
mod outputs;
#[cfg(test)]
mod tests;

pub use laws::list_laws;
pub use outputs::{write_output, write_outputs};
