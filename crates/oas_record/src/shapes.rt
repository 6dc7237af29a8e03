//! The records of shapes.

use crate::fields::Deltas;
use crate::repetition::Rep;

/// What the records of all shapes have in common. An absent field is None: its bit of the info byte is clear.
#[derive(Debug, Drop)]
pub struct ShapeHead<'f> {
    /// The info byte.
    pub info: u8,
    /// The layer.
    pub layer: Option<u64>,
    /// The datatype.
    pub datatype: Option<u64>,
    /// The x of its place.
    pub x: Option<i64>,
    /// The y of its place.
    pub y: Option<i64>,
    /// How it is repeated.
    pub repetition: Option<Rep<'f>>,
}

/// The deltas of a TRAPEZOID, by its id.
#[derive(Clone, Copy, Debug, PartialEq, Eq)]
pub enum TrapezoidDeltas {
    /// Id 23: delta a and delta b.
    Both(i64, i64),
    /// Id 24: delta a alone.
    A(i64),
    /// Id 25: delta b alone.
    B(i64),
}

/// What the record of a shape has beside its head.
#[derive(Debug, Drop)]
pub enum ShapeKind<'f> {
    /// Id 20, RECTANGLE.
    Rectangle {
        width: Option<u64>,
        height: Option<u64>,
    },
    /// Id 21, POLYGON.
    Polygon {
        points: Option<Deltas<'f>>,
    },
    /// Id 22, PATH. Bits 2 and 3 of the extension byte are the scheme at the start, bits 0 and 1 at the end; an
    /// extension is written where its scheme is 3.
    Path {
        half_width: Option<u64>,
        extension: Option<u8>,
        start: Option<i64>,
        end: Option<i64>,
        points: Option<Deltas<'f>>,
    },
    /// Ids 23 to 25, TRAPEZOID.
    Trapezoid {
        width: Option<u64>,
        height: Option<u64>,
        deltas: TrapezoidDeltas,
    },
    /// Id 26, CTRAPEZOID. The type is 0 to 25.
    Ctrapezoid {
        trapezoid_type: Option<u64>,
        width: Option<u64>,
        height: Option<u64>,
    },
    /// Id 27, CIRCLE.
    Circle {
        radius: Option<u64>,
    },
    /// Id 33, XGEOMETRY.
    XGeometry {
        attribute: u64,
        text: (usize, usize),
    },
}
