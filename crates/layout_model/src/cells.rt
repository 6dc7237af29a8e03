//! Cells, their placements, and the counts of a layout.
use crate::names::Name;
use crate::offsets::Offsets;
use crate::orient::Orient;
use crate::shape_lists::Shapes;
use geo_stream::List;
use half_grid::Point;

/// The placement of a cell: it is there once at each of the offsets, enlarged, mirrored and turned as `orient` says and
/// then moved by `at` and by the offset.
#[derive(Debug, Drop)]
pub struct Placement {
    /// The name of the placed cell.
    pub target: Name,
    /// How the placed cell is enlarged, mirrored and turned.
    pub orient: Orient,
    /// The move.
    pub at: Point,
    /// Further moves, one for each copy.
    pub offsets: Offsets,
}

/// A named cell.
#[derive(Debug, Drop)]
pub struct Cell {
    /// Its name.
    pub name: Name,
    /// Its own shapes.
    pub shapes: Shapes,
    /// The cells that it places.
    pub placements: List<Placement>,
}

/// How many things of each kind a layout file has.
#[derive(Clone, Copy, Debug, PartialEq, Eq)]
pub struct Counts {
    /// Shapes on the wanted pairs, as the file writes them.
    pub kept: u64,
    /// Shapes on other pairs.
    pub other: u64,
    /// Texts.
    pub texts: u64,
    /// Nodes.
    pub nodes: u64,
    /// Boxes.
    pub boxes: u64,
    /// Properties.
    pub properties: u64,
}

/// The counts of a file without things.
pub const NO_COUNTS: Counts = Counts {
    kept: 0,
    other: 0,
    texts: 0,
    nodes: 0,
    boxes: 0,
    properties: 0,
};

/// A layout: its cells, in the order of the file, and the counts.
#[derive(Debug, Drop)]
pub struct Layout {
    /// The cells.
    pub cells: List<Cell>,
    /// How many things of each kind the file has.
    pub counts: Counts,
}
