//! The joined list of the tiles that a rule takes, swept in a way that stays near-linear.
//!
//! Numbers are half units.
#![tactic(auto)]

mod columns;
mod counted;
mod cuts;
mod cutting;
mod dealing;
mod halting;
mod laws;
mod lengths;
mod looking;
mod lowest_tile;
mod meeting;
mod operands;
mod parting;
mod seams;
mod sums;
mod sweep;
#[cfg(test)]
mod tests;
mod waiting;

pub use counted::Swept;
pub use laws::column_laws;
pub use looking::lowest;
pub use meeting::put_edge;
pub use operands::operand_edges;
pub use plane_sweep::LowestTile;
pub use sweep::{plain, swept, swept_counted, swept_within};
