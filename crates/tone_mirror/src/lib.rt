//! Mirror images of trapezoids at an upright line, and the rectangle of a frame.
#![tactic(auto)]

mod frame;
mod images;
mod laws;
mod mirror;
#[cfg(test)]
mod tests;

pub use frame::frame_trap;
pub use images::Mirrored;
pub use laws::mirror_laws;
pub use mirror::mirrored;
