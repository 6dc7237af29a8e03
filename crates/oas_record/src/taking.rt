//! The lists of a record.
ghost use Rattle.std.specs.Prelude.{◌≡◌, None as Nothing};
ghost use Rattle.oas_record.specs.Taken.{polygon_points_in, polygon_points_of, path_points_in, path_points_of, repetition_in};

use crate::fields::Deltas;
use crate::records::OasRecord;
use crate::repetition::Rep;
use crate::shapes::{ShapeHead, ShapeKind};

/// The point list and the repetition of a record, moved out of it.
#[derive(Debug, Drop)]
pub struct Lists<'f> {
    /// The point list of a POLYGON.
    pub polygon_points: Option<Deltas<'f>>,
    /// The point list of a PATH.
    pub path_points: Option<Deltas<'f>>,
    /// How the record is repeated.
    pub repetition: Option<Rep<'f>>,
}

// The lists of a record with no point list.
fn repeated(repetition: Option<Rep<'_>>) -> Lists<'_>
    ensures polygon_points { result.polygon_points ≡ Nothing }
    ensures path_points { result.path_points ≡ Nothing }
    ensures repetition { result.repetition ≡ repetition.entry }
{
    Lists {
        polygon_points: None,
        path_points: None,
        repetition,
    }
}

// The repetition of a shape.
fn repetition_of(head: ShapeHead<'_>) -> Option<Rep<'_>>
    ensures { result ≡ head.entry.repetition }
{
    let ShapeHead { repetition, .. } = head;
    repetition
}

// The lists of a shape with this repetition.
fn lists_of_shape<'f>(repetition: Option<Rep<'f>>, kind: ShapeKind<'f>) -> Lists<'f>
    ensures polygon_points { result.polygon_points ≡ polygon_points_of kind.entry }
    ensures path_points { result.path_points ≡ path_points_of kind.entry }
    ensures repetition { result.repetition ≡ repetition.entry }
{
    match kind {
        ShapeKind::Polygon { points } => Lists {
            polygon_points: points,
            path_points: None,
            repetition,
        },
        ShapeKind::Path { points, .. } => Lists {
            polygon_points: None,
            path_points: points,
            repetition,
        },
        _ => repeated(repetition),
    }
}

impl<'f> OasRecord<'f> {
    /// The lists of the record.
    pub fn into_lists(self) -> Lists<'f>
        ensures polygon_points { result.polygon_points ≡ polygon_points_in self.entry }
        ensures path_points { result.path_points ≡ path_points_in self.entry }
        ensures repetition { result.repetition ≡ repetition_in self.entry }
    {
        match self {
            OasRecord::Placement { repetition, .. } => repeated(repetition),
            OasRecord::Text { repetition, .. } => repeated(repetition),
            OasRecord::Shape { head, kind } => lists_of_shape(repetition_of(head), kind),
            _ => repeated(None),
        }
    }
}
