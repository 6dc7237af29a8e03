//! Layouts from OASIS files (SEMI P39, version 1.0): the layout that the bytes of a file hold, or the first fault and
//! where it is.
#![tactic(auto)]

mod bodies;
mod cells;
mod counting;
mod drawing;
mod finishing;
mod ids;
mod laws;
mod naming;
mod order;
mod placing;
mod plain;
mod reading;
mod refusing;
mod reusing;
mod rules;
mod taking;
mod undefined;
mod values;

pub use laws::reading_laws;
pub use reading::read_oas;
pub use refusing::OasBad;
