//! What a record writes.
ghost use Rattle.std.specs.Prelude.{◌≡◌};
ghost use Rattle.oas_fields.specs.Writes.{writes_of, nothing, shape, shape_writes};

use crate::extension::{Extension, end_by, start_by};
use crate::places::Step;
use oas_record::{Called, OasRecord, ShapeHead, ShapeKind};

/// What a record writes of the modal variables but for lists; None where it leaves one as it was.
#[derive(Clone, Copy, Debug, PartialEq, Eq)]
pub(crate) struct Written {
    /// The record begins a cell.
    pub(crate) begins_cell: bool,
    /// The mode of positions: true for relative.
    pub(crate) is_relative: Option<bool>,
    /// The layer.
    pub(crate) layer: Option<u64>,
    /// The datatype.
    pub(crate) datatype: Option<u64>,
    /// The width of a rectangle or a trapezoid.
    pub(crate) width: Option<u64>,
    /// Their height.
    pub(crate) height: Option<u64>,
    /// The height takes the value that the width has then.
    pub(crate) is_square: bool,
    /// The half width of a path.
    pub(crate) half_width: Option<u64>,
    /// How far a path goes beyond its first point.
    pub(crate) start: Option<Extension>,
    /// How far a path goes beyond its last point.
    pub(crate) end: Option<Extension>,
    /// The type of a compressed trapezoid.
    pub(crate) kind: Option<u64>,
    /// The placed cell.
    pub(crate) cell: Option<Called>,
    /// The position of placements.
    pub(crate) placement: Step,
    /// The position of geometry.
    pub(crate) geometry: Step,
    /// The position of texts.
    pub(crate) text: Step,
}

const KEPT: Step = Step { x: None, y: None };

fn nothing() -> Written
    ensures { result ≡ nothing }
{
    Written {
        begins_cell: false,
        is_relative: None,
        layer: None,
        datatype: None,
        width: None,
        height: None,
        is_square: false,
        half_width: None,
        start: None,
        end: None,
        kind: None,
        cell: None,
        placement: KEPT,
        geometry: KEPT,
        text: KEPT,
    }
}

// What all shapes write.
fn shape(head: &ShapeHead<'_>) -> Written
    ensures { result ≡ shape head.now }
{
    Written {
        layer: head.layer,
        datatype: head.datatype,
        geometry: Step {
            x: head.x,
            y: head.y,
        },
        ..nothing()
    }
}

fn shape_writes(head: &ShapeHead<'_>, kind: &ShapeKind<'_>) -> Written
    ensures { result ≡ shape_writes head.now kind.now }
{
    match kind {
        ShapeKind::Rectangle { width, height } => Written {
            width: *width,
            height: *height,
            is_square: head.info >= 128,
            ..shape(head)
        },
        ShapeKind::Path {
            half_width,
            extension,
            start,
            end,
            ..
        } => Written {
            half_width: *half_width,
            start: start_by(*extension, *start),
            end: end_by(*extension, *end),
            ..shape(head)
        },
        ShapeKind::Trapezoid { width, height, .. } => Written {
            width: *width,
            height: *height,
            ..shape(head)
        },
        ShapeKind::Ctrapezoid {
            trapezoid_type,
            width,
            height,
        } => Written {
            kind: *trapezoid_type,
            width: *width,
            height: *height,
            ..shape(head)
        },
        _ => shape(head),
    }
}

impl Written {
    /// What the record writes but for lists.
    pub(crate) fn of(current: &OasRecord<'_>) -> Written
        ensures { result ≡ writes_of current.now }
    {
        match current {
            OasRecord::Cell(_) => Written {
                begins_cell: true,
                ..nothing()
            },
            OasRecord::Mode { is_relative } => Written {
                is_relative: Some(*is_relative),
                ..nothing()
            },
            OasRecord::Placement { cell, x, y, .. } => Written {
                cell: *cell,
                placement: Step { x: *x, y: *y },
                ..nothing()
            },
            OasRecord::Text { x, y, .. } => Written {
                text: Step { x: *x, y: *y },
                ..nothing()
            },
            OasRecord::Shape { head, kind } => shape_writes(head, kind),
            _ => nothing(),
        }
    }
}
