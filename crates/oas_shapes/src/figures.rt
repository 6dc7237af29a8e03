//! Shapes by a few numbers.

/// A shape by its numbers, in grid steps, seen from its position.
#[derive(Clone, Copy, Debug, PartialEq, Eq)]
pub enum Figure {
    /// A RECTANGLE.
    Rectangle {
        width: u64,
        height: u64,
    },
    /// A TRAPEZOID with level sides in its box: the left side goes over by `a` on its way up, the right side by `b`.
    Horizontal {
        width: u64,
        height: u64,
        a: i64,
        b: i64,
    },
    /// A TRAPEZOID with upright sides in its box: the lower side goes up by `-a` on its way to the right, the upper
    /// side by `-b`.
    Vertical {
        width: u64,
        height: u64,
        a: i64,
        b: i64,
    },
    /// A CTRAPEZOID of type 0 to 25. A width or height that the type doesn't use can be any number.
    Ctrapezoid {
        kind: u64,
        width: u64,
        height: u64,
    },
}

/// How wide a path is and how far it goes beyond its ends, in grid steps.
#[derive(Clone, Copy, Debug, PartialEq, Eq)]
pub struct Brush {
    /// Half of its width.
    pub half_width: u64,
    /// How far it goes beyond its first point, or less far where it is negative.
    pub start: i128,
    /// How far it goes beyond its last point.
    pub end: i128,
}
