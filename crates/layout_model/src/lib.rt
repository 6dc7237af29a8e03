//! A layout as plain data: cells of shapes and placements.
//!
//! Lengths are half units. A shape is there once at each of its offsets.
#![tactic(auto)]

mod boxes;
mod cells;
mod courses;
mod directions;
mod intervals;
mod kept;
mod names;
mod offsets;
mod orient;
mod pair;
mod paths;
mod points;
mod products;
mod rectangles;
mod shape_lists;
mod shapes;
mod shared_paths;
mod stretches;
mod strides;
mod turns;
mod wanted;

pub use boxes::box_of;
pub use cells::{Cell, Counts, Layout, NO_COUNTS, Placement};
pub use intervals::{Axis, Interval};
pub use kept::{KeptShape, Outline};
pub use names::{Name, NameBad, is_name};
pub use offsets::Offsets;
pub use orient::{Orient, image};
pub use pair::{Pair, pair_law};
pub use paths::{PathBad, path_laws, path_shapes};
pub use points::{Points, SharedPoints};
pub use shape_lists::{Copies, ShapeRef, Shapes};
pub use shapes::{Shape, ShapeBad, has_grid_edges};
pub use shared_paths::SharedPath;
pub use stretches::Brush;
pub use turns::{factor_in, turns_in};
pub use wanted::{is_among, sorted_pairs};
