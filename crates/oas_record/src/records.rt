//! Records.

use crate::fields::{Called, Interval};
use crate::repetition::Rep;
use crate::shapes::{ShapeHead, ShapeKind};
use oas_lex::Real;

/// What a name record names.
#[derive(Clone, Copy, Debug, PartialEq, Eq)]
pub enum NameKind {
    /// Ids 3 and 4, CELLNAME.
    Cell,
    /// Ids 5 and 6, TEXTSTRING.
    Text,
    /// Ids 7 and 8, PROPNAME.
    Property,
    /// Ids 9 and 10, PROPSTRING.
    PropertyString,
}

/// The magnification and the angle of a PLACEMENT with id 18.
#[derive(Clone, Copy, Debug, PartialEq, Eq)]
pub struct Turn {
    /// The magnification.
    pub magnification: Option<Real>,
    /// The angle, in degrees.
    pub angle: Option<Real>,
}

/// A record with its written and its absent fields. Numbers and moves are in grid steps. Strings, table offsets,
/// validation bytes and the values of a property are the two offsets between which their bytes are. An absent field is
/// None: its bit of the info byte is clear. The items of lists stay in the file too.
#[derive(Debug, Drop)]
pub enum OasRecord<'f> {
    /// Id 0, PAD.
    Pad,
    /// Id 1, START. The table offsets are here where the offset flag is 0.
    Start {
        version: (usize, usize),
        unit: Real,
        offset_flag: u64,
        tables: Option<(usize, usize)>,
    },
    /// Id 2, END. The table offsets are here where START's offset flag is 1, the validation bytes where the scheme
    /// isn't 0.
    End {
        tables: Option<(usize, usize)>,
        padding: (usize, usize),
        scheme: u64,
        validation: Option<(usize, usize)>,
    },
    /// Ids 3 to 10, by what is named. The even ids have a number.
    Name {
        kind: NameKind,
        text: (usize, usize),
        number: Option<u64>,
    },
    /// Ids 11 and 12, LAYERNAME for geometry and for texts.
    LayerName {
        of_texts: bool,
        name: (usize, usize),
        layers: Interval,
        datatypes: Interval,
    },
    /// Ids 13 and 14, CELL by the number of its name and by its name.
    Cell(Called),
    /// Ids 15 and 16, XYABSOLUTE and XYRELATIVE.
    Mode {
        is_relative: bool,
    },
    /// Id 17, PLACEMENT at a multiple of 90 degrees, and id 18, with a magnification and an angle.
    Placement {
        info: u8,
        cell: Option<Called>,
        turn: Option<Turn>,
        x: Option<i64>,
        y: Option<i64>,
        repetition: Option<Rep<'f>>,
    },
    /// Id 19, TEXT.
    Text {
        info: u8,
        text: Option<Called>,
        textlayer: Option<u64>,
        texttype: Option<u64>,
        x: Option<i64>,
        y: Option<i64>,
        repetition: Option<Rep<'f>>,
    },
    /// Ids 20 to 27 and 33: a shape.
    Shape {
        head: ShapeHead<'f>,
        kind: ShapeKind<'f>,
    },
    /// Id 28, PROPERTY.
    Property {
        info: u8,
        name: Option<Called>,
        count: Option<u64>,
        values: Option<(usize, usize)>,
    },
    /// Id 29, the last PROPERTY again.
    LastProperty,
    /// Ids 30 and 31, XNAME. Id 31 has a number.
    XName {
        attribute: u64,
        text: (usize, usize),
        number: Option<u64>,
    },
    /// Id 32, XELEMENT.
    XElement {
        attribute: u64,
        text: (usize, usize),
    },
}
