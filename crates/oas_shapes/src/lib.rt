//! What the fields of an OASIS record mean in geometry (SEMI P39, version 1.0): the outlines of shapes, the places of
//! point lists and the offsets of repetitions, or the rule of values that they break.
#![tactic(auto)]

mod boxes;
mod corners;
mod drawing;
mod figures;
mod lattices;
mod lists;
mod outlines;
mod path_lists;
mod paths;
mod repetitions;
mod sharing;
mod tables;
mod trails;
mod wide;

pub use boxes::draw_rectangle;
pub use drawing::{Undrawn, draw_figure, draw_path, draw_polygon};
pub use figures::{Brush, Figure};
pub use outlines::PointList;
pub use path_lists::PathList;
pub use repetitions::{dimensions_are_allowed, offsets_of};
pub use sharing::Repetition;
pub use tables::{uses_height, uses_width};
