//! Lists that come one by one, and what comes where memory runs out.
#![tactic(auto)]

use std::alloc::{AllocError, AllocFailed};

mod flattened;
mod from_slice;
mod gathering;
mod joined;
mod list;
mod mapped;
mod merged;
mod peeked;
mod refusal;
mod stream;
#[cfg(test)]
mod tests;

pub use flattened::Flattened;
pub use from_slice::FromSlice;
pub use gathering::gather;
pub use joined::Joined;
pub use list::List;
pub use mapped::Mapped;
pub use merged::Merged;
pub use refusal::Refusal;
pub use stream::Stream;

/// Memory ran out. What was to be changed is as before, unless the call says otherwise.
#[derive(Clone, Copy, Debug, PartialEq, Eq)]
pub struct NoMemory;

impl From<AllocError> for NoMemory {
    fn from(_refused: AllocError) -> NoMemory {
        NoMemory
    }
}

impl<T: Drop> From<AllocFailed<T>> for NoMemory {
    fn from(_refused: AllocFailed<T>) -> NoMemory {
        NoMemory
    }
}
