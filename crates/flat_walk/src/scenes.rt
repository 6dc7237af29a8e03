//! What is walked over.

use crate::boxes::Boxes;
use crate::tables::Parts;
use cell_tree::Tree;
use half_grid::Window;
use layout_model::Pair;

// A tree with the pieces of its shapes, and boxes round what shapes and placements show, if there are some; and of the
// pieces those on a pair with rows in a window.
#[derive(Clone, Copy)]
pub(crate) struct Scene<'t> {
    pub(crate) tree: &'t Tree,
    pub(crate) parts: &'t Parts<'t>,
    pub(crate) boxes: Option<&'t Boxes>,
    pub(crate) pair: Pair,
    pub(crate) window: Window,
}
