//! Layouts from GDSII stream files: the layout that the bytes of a file hold, or the first fault and where
//! it is.
#![tactic(auto)]

mod counting;
mod drawing;
mod elements;
mod laws;
mod naming;
mod order;
mod placing;
mod pointing;
mod reading;
mod refusing;
mod values;

pub use laws::reading_laws;
pub use reading::read_gds;
pub use refusing::GdsBad;
