//! The values of the fields.
ghost use Rattle.std.specs.Prelude.{◌≡◌, List, [], ◌∷◌, ◌^◌};
ghost use Rattle.oas_fields.specs.Steps.{AreWritten, AreKept};
ghost use Rattle.oas_fields.specs.Values.{AreFields, ArePlacesWithin};
ghost use Rattle.oas_fields.specs.Writes.{writes_of};
ghost use Rattle.oas_record.specs.Plain.{rectangle_of};
ghost use Rattle.oas_record.specs.declared.records.OasRecord.{OasRecord as ARecord};

use crate::choices::{
    cell_or, height_by, keep_path_points, keep_polygon_points, keep_repetition, length_of,
    length_or, mode_or, number_or, square_height,
};
use crate::places::{Place, Step, moved};
use crate::written::Written;
use oas_record::{Called, Deltas, Lists, OasRecord, PlainRectangle};
use oas_shapes::{PathList, PointList, Repetition};

/// The values that the fields of the last record have, written or not: of each modal variable the value that was
/// written last in the same cell, None where none was, and the positions. Lengths are in grid steps.
#[derive(Debug, Drop)]
pub struct Fields<'f> {
    /// Whether positions are relative.
    pub is_relative: bool,
    /// The layer.
    pub layer: Option<u64>,
    /// The datatype.
    pub datatype: Option<u64>,
    /// The width of a rectangle or a trapezoid.
    pub width: Option<u64>,
    /// Their height.
    pub height: Option<u64>,
    /// The point list of a polygon.
    pub polygon_points: Option<PointList<'f>>,
    /// The half width of a path.
    pub half_width: Option<u64>,
    /// How far a path goes beyond its first point.
    pub start: Option<i128>,
    /// How far a path goes beyond its last point.
    pub end: Option<i128>,
    /// The point list of a path.
    pub path_points: Option<PathList<'f>>,
    /// The type of a compressed trapezoid.
    pub kind: Option<u64>,
    /// The placed cell.
    pub cell: Option<Called>,
    /// The repetition.
    pub repetition: Option<Repetition<'f>>,
    /// The position of placements.
    pub placement: Place,
    /// The position of geometry.
    pub geometry: Place,
    /// The position of texts.
    pub text: Place,
}

const ORIGIN: Place = Place { x: 0, y: 0 };

impl<'f> Fields<'f> {
    /// The values before the first record: there are none, and all positions are 0 and absolute.
    pub fn new() -> Fields<'f>
        ensures { AreFields [] result }
    {
        Fields {
            is_relative: false,
            layer: None,
            datatype: None,
            width: None,
            height: None,
            polygon_points: None,
            half_width: None,
            start: None,
            end: None,
            path_points: None,
            kind: None,
            cell: None,
            repetition: None,
            placement: ORIGIN,
            geometry: ORIGIN,
            text: ORIGIN,
        }
    }

    /// Takes a record: the values are those of its own fields then. Positions before it are within 2^100 of 0.
    pub fn take(&mut self, current: OasRecord<'f>)
        requires near { ArePlacesWithin (2 ^ 100) self.old }
        ensures fields { (past : List ARecord) → AreFields past self.old → AreFields (current.entry ∷ past) self.new }
    {
        let written = Written::of(&current);
        let lists = current.into_lists();
        if written.begins_cell {
            *self = Fields::new();
            return;
        }
        self.put(written);
        self.keep(lists);
    }

    /// Takes a RECTANGLE that writes no repetition: the values are those of its own fields then. Positions before it
    /// are within 2^100 of 0.
    #[inline(always)]
    pub fn take_rectangle(&mut self, current: &PlainRectangle)
        requires near { ArePlacesWithin (2 ^ 100) self.old }
        ensures fields { (past : List ARecord) → AreFields past self.old → AreFields (rectangle_of current.now ∷ past) self.new }
        ensures placement { self.new.placement ≡ self.old.placement }
        ensures text { self.new.text ≡ self.old.text }
    {
        self.put_rectangle(current);
    }

    // Takes what a RECTANGLE writes but for its repetition.
    #[inline(always)]
    fn put_rectangle(&mut self, current: &PlainRectangle)
        requires near { ArePlacesWithin (2 ^ 100) self.old }
        ensures { AreWritten (writes_of (rectangle_of current.now)) self.old self.new }
    {
        self.layer = number_or(current.layer, self.layer);
        self.datatype = number_or(current.datatype, self.datatype);
        self.width = number_or(current.width, self.width);
        let height = square_height(current, self.width);
        self.height = number_or(height, self.height);
        let step = Step {
            x: current.x,
            y: current.y,
        };
        self.geometry = moved(self.is_relative, step, self.geometry);
    }

    // Takes what a record that doesn't begin a cell writes but for lists.
    fn put(&mut self, written: Written)
        requires near { ArePlacesWithin (2 ^ 100) self.old }
        ensures { AreWritten written self.old self.new }
    {
        self.layer = number_or(written.layer, self.layer);
        self.datatype = number_or(written.datatype, self.datatype);
        self.width = number_or(written.width, self.width);
        self.height = number_or(height_by(written, self.width), self.height);
        self.half_width = number_or(written.half_width, self.half_width);
        self.start = length_or(length_of(self.half_width, written.start), self.start);
        self.end = length_or(length_of(self.half_width, written.end), self.end);
        self.kind = number_or(written.kind, self.kind);
        self.cell = cell_or(written.cell, self.cell);
        self.placement = moved(self.is_relative, written.placement, self.placement);
        self.geometry = moved(self.is_relative, written.geometry, self.geometry);
        self.text = moved(self.is_relative, written.text, self.text);
        self.is_relative = mode_or(written.is_relative, self.is_relative);
    }

    // Takes the lists of a record.
    fn keep(&mut self, lists: Lists<'f>)
        ensures { AreKept lists.entry self.old self.new }
    {
        let Lists {
            polygon_points,
            path_points,
            repetition,
        } = lists;
        keep_polygon_points(&mut self.polygon_points, polygon_points);
        keep_path_points(&mut self.path_points, path_points);
        keep_repetition(&mut self.repetition, repetition);
    }
}
