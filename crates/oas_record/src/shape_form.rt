//! The kinds of shapes that records have.
/// Which shape a record is, by its id.
#[derive(Clone, Copy, Debug, PartialEq, Eq)]
pub(crate) enum ShapeForm {
    /// Id 20, RECTANGLE.
    Rectangle,
    /// Id 21, POLYGON.
    Polygon,
    /// Id 22, PATH.
    Path,
    /// Id 23, TRAPEZOID with both deltas.
    Trapezoid,
    /// Id 24, TRAPEZOID with delta a alone.
    TrapezoidA,
    /// Id 25, TRAPEZOID with delta b alone.
    TrapezoidB,
    /// Id 26, CTRAPEZOID.
    Ctrapezoid,
    /// Id 27, CIRCLE.
    Circle,
}
