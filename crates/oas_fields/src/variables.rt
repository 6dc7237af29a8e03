//! Names of the modal variables.

/// A modal variable that may have no value.
#[derive(Clone, Copy, Debug, PartialEq, Eq)]
pub enum Variable {
    /// The layer.
    Layer,
    /// The datatype.
    Datatype,
    /// The width of a rectangle or a trapezoid.
    GeometryW,
    /// Their height.
    GeometryH,
    /// The point list of a polygon.
    PolygonPoints,
    /// The half width of a path.
    PathHalfWidth,
    /// How far a path goes beyond its first point.
    PathStart,
    /// How far a path goes beyond its last point.
    PathEnd,
    /// The point list of a path.
    PathPoints,
    /// The type of a compressed trapezoid.
    CtrapezoidType,
    /// The placed cell.
    PlacementCell,
    /// The repetition.
    Repetition,
}
