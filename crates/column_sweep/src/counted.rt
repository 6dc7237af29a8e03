//! What a sweep gives, with a count of its steps.

use half_grid::Trap;

/// The joined list that a sweep gave, and how many edges were gone over to make it.
#[derive(Drop)]
pub struct Swept {
    /// The joined list.
    pub traps: Vec<Trap>,
    /// How many edges were gone over, each as often as a slab has it. It is a measure, of which nothing is promised.
    pub walked: u64,
}
