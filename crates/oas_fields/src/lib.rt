//! The values of absent fields of OASIS records (SEMI P39, version 1.0, modal variables): of each field the value that
//! was written last in the same cell, and the three positions.
#![tactic(auto)]

mod choices;
mod extension;
mod fields;
mod places;
#[cfg(test)]
mod tests;
mod variables;
mod written;

pub use fields::Fields;
pub use places::Place;
pub use variables::Variable;
