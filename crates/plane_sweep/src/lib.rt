//! The plane sweep: the joined list of what a rule takes of edges in a window, one trapezoid at a time.
//!
//! The sweep stops where an edge begins or ends, and where two active lines meet, and looks only at what changes there.
//! `stop` takes the list of its lines over all points of a stop, from the row list of the row below to that of the row above,
//! with events one by one from a source, and the runs with their open trapezoids: what ends at the stop waits to be given, and
//! the rest is open at the lines above. `entry` takes the runs over one point, and `progress` goes from stop to stop.
#![tactic(auto)]

mod bundle;
mod entry;
mod event;
mod laws;
mod lowest_tile;
mod next_stop;
mod packed;
mod parts;
mod point;
mod progress;
mod rows;
mod runs;
mod stop;
mod sweep;

pub use event::{EventSource, SortedEvents};
pub use laws::settle_laws;
pub use lowest_tile::{LowestTile, lowest};
pub use rows::RowSweep;
pub use sweep::{Sweep, swept};
