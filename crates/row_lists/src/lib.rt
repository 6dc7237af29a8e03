//! Row lists: the lines of a row at which windings change, from left to right, and the events at which they change from
//! row to row.
//!
//! What a sweep keeps between two stops is the row list of each row between them. Here are their definition, the laws that
//! they meet, and the events of edges in the order in which a sweep comes to them.
#![tactic(auto)]

mod event;
mod laws;
#[cfg(test)]
mod tests;

pub use event::{Event, sorted_events};
pub use laws::{event_laws, row_list_laws, stop_laws};
