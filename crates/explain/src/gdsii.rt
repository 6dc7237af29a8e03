//! Where a GDSII file is refused: the cell, the element, its layer and its place.
use crate::note::Note;
use crate::walk::{Found, Title};
use gds_record::{Kind, Record, int4, record_at, unsigned2};
use geo_stream::NoMemory;
use layout_model::Pair;

/// What stands at an offset of a file.
#[derive(Clone, Copy)]
struct Place {
    // the STRNAME of the cell that was begun last, and where the cell begins
    cell: Option<Record>,
    cell_at: usize,
    // the element that was begun last, and where it begins
    element: Option<Kind>,
    element_at: usize,
    is_closed: bool,
    layer: Option<u16>,
    datatype: Option<u16>,
    // the SNAME of a placement
    target: Option<Record>,
}

const NOWHERE: Place = Place {
    cell: None,
    cell_at: 0,
    element: None,
    element_at: 0,
    is_closed: true,
    layer: None,
    datatype: None,
    target: None,
};

// The record at an offset, where one is there.
fn record_here(bytes: &[u8], at: usize) -> Option<Record> {
    if bytes.len() < at {
        return None;
    }
    match record_at(bytes, at) {
        Ok(record) => Some(record),
        Err(_framing) => None,
    }
}

// The content of a record.
fn content_of(bytes: &[u8], record: Record) -> &[u8] {
    bytes.get(record.first..record.next).unwrap_or(&[])
}

// The number in the first two bytes of a content.
fn number_of(content: &[u8]) -> Option<u16> {
    if content.len() < 2 {
        return None;
    }
    Some(unsigned2(content, 0))
}

// What an element is called that begins with a record of this kind.
fn element_name(kind: Kind) -> Option<&'static str> {
    match kind {
        Kind::Boundary => Some("polygon"),
        Kind::Path => Some("path"),
        Kind::Sref => Some("placement"),
        Kind::Aref => Some("array"),
        Kind::Text => Some("text"),
        Kind::Node => Some("node"),
        Kind::Box => Some("box"),
        _ => None,
    }
}

impl Place {
    // Takes the record at an offset.
    fn take(&mut self, bytes: &[u8], at: usize, record: Record) {
        if self.is_closed {
            self.element = None;
            self.is_closed = false;
        }
        match record.kind {
            Kind::BgnStr => {
                self.cell = None;
                self.cell_at = at;
            }
            Kind::StrName => self.cell = Some(record),
            Kind::EndStr => self.cell = None,
            Kind::Layer => self.layer = number_of(content_of(bytes, record)),
            Kind::DataType => self.datatype = number_of(content_of(bytes, record)),
            Kind::Sname => self.target = Some(record),
            Kind::EndEl => self.is_closed = true,
            kind => {
                if element_name(kind).is_some() {
                    self.element = Some(kind);
                    self.element_at = at;
                    self.layer = None;
                    self.datatype = None;
                    self.target = None;
                }
            }
        }
    }
}

// What stands at an offset.
fn place_at(bytes: &[u8], wanted: usize) -> Place {
    let mut place = NOWHERE;
    let mut at = 0;
    for _record in 0..bytes.len() {
        if wanted < at {
            return place;
        }
        let Some(record) = record_here(bytes, at) else {
            if place.is_closed {
                place.element = None;
            }
            return place;
        };
        place.take(bytes, at, record);
        at = record.next;
    }
    place
}

// Which of the elements of its kind in its cell an element is, counted from 1.
fn ordinal_of(bytes: &[u8], place: &Place, kind: Kind) -> u64 {
    let mut ordinal = 0u64;
    let mut at = place.cell_at;
    for _record in 0..bytes.len() {
        if place.element_at < at {
            return ordinal;
        }
        let Some(record) = record_here(bytes, at) else {
            return ordinal;
        };
        if record.kind == kind {
            ordinal = ordinal.saturating_add(1);
        }
        at = record.next;
    }
    ordinal
}

// The points of the element that begins at an offset.
fn points_of(bytes: &[u8], element_at: usize) -> &[u8] {
    let mut at = element_at;
    for _record in 0..bytes.len() {
        let Some(record) = record_here(bytes, at) else {
            return &[];
        };
        match record.kind {
            Kind::Xy => return content_of(bytes, record),
            Kind::EndEl => return &[],
            _ => at = record.next,
        }
    }
    &[]
}

/// A point, in grid steps.
#[derive(Clone, Copy)]
struct Spot {
    x: i64,
    y: i64,
}

// The first point of a content, and what comes after it.
fn first_point(content: &[u8]) -> Option<(Spot, &[u8])> {
    if content.len() < 8 {
        return None;
    }
    let spot = Spot {
        x: i64::from(int4(content, 0)),
        y: i64::from(int4(content, 4)),
    };
    Some((spot, &content[8..]))
}

// Whether the edge between two points is none that the rule takes.
fn is_bad_edge(rule: u8, a: Spot, b: Spot) -> bool {
    let across = a.x.abs_diff(b.x);
    let up = a.y.abs_diff(b.y);
    let is_level = across == 0 || up == 0;
    match rule {
        12 => !is_level && across != up,
        14 => !is_level,
        _ => false,
    }
}

// The first edge of points that the rule doesn't take.
fn bad_edge(rule: u8, points: &[u8]) -> Option<(Spot, Spot)> {
    let (mut last, mut rest) = first_point(points)?;
    for _point in 0..points.len() {
        let (spot, more) = first_point(rest)?;
        if is_bad_edge(rule, last, spot) {
            return Some((last, spot));
        }
        last = spot;
        rest = more;
    }
    None
}

// Tells where the points of an element are, with the edge that the rule doesn't take.
fn tell_points(note: &mut Note, points: &[u8], rule: u8, steps: u32) -> Result<(), NoMemory> {
    if let Some((a, b)) = bad_edge(rule, points) {
        note.put(", from ")?;
        note.put_point(a.x, a.y, steps)?;
        note.put(" to ")?;
        note.put_point(b.x, b.y, steps)?;
        return note.put(" um");
    }
    match first_point(points) {
        Some((spot, _)) => {
            note.put(", at ")?;
            note.put_point(spot.x, spot.y, steps)?;
            note.put(" um")
        }
        None => Ok(()),
    }
}

// The name in a record, without the NULs at its end.
fn name_in(bytes: &[u8], record: Record) -> &[u8] {
    match content_of(bytes, record) {
        [name @ .., 0, 0] => name,
        [name @ .., 0] => name,
        name => name,
    }
}

// Tells the layer and the datatype of an element, where they are known.
fn tell_layer(note: &mut Note, place: &Place) -> Result<(), NoMemory> {
    match (place.layer, place.datatype) {
        (Some(layer), Some(datatype)) => {
            note.put(", layer ")?;
            note.put_pair(u64::from(layer), u64::from(datatype))
        }
        _ => Ok(()),
    }
}

// Tells the element of a place.
fn tell_element(
    note: &mut Note,
    bytes: &[u8],
    place: &Place,
    rule: u8,
    steps: u32,
) -> Result<(), NoMemory> {
    let Some(kind) = place.element else {
        return Ok(());
    };
    note.put(", ")?;
    note.put(element_name(kind).unwrap_or("element"))?;
    note.put(" ")?;
    note.put_number(u128::from(ordinal_of(bytes, place, kind)))?;
    note.put(" of the cell")?;
    if let Some(target) = place.target {
        note.put(" (of ")?;
        note.put_bytes(name_in(bytes, target))?;
        note.put(")")?;
    }
    tell_layer(note, place)?;
    if steps == 0 {
        return Ok(());
    }
    tell_points(note, points_of(bytes, place.element_at), rule, steps)
}

/// Tells what stands at an offset of a GDSII file, of which a micrometre has so many grid steps, where the record there
/// breaks this rule, or 0. No coordinates are told where there are no steps.
pub(crate) fn tell_gds(
    note: &mut Note,
    bytes: &[u8],
    at: usize,
    rule: u8,
    steps: u32,
) -> Result<(), NoMemory> {
    let place = place_at(bytes, at);
    note.put("    ")?;
    if let Some(name) = place.cell {
        note.put("cell ")?;
        note.put_bytes(name_in(bytes, name))?;
        tell_element(note, bytes, &place, rule, steps)?;
        note.put("; ")?;
    }
    note.put_byte(at)?;
    note.put("\n")
}

/// Tells the name of the structure that begins or is named at an offset.
pub(crate) fn tell_structure(note: &mut Note, bytes: &[u8], at: usize) -> Result<(), NoMemory> {
    match record_here(bytes, at) {
        Some(record) => note.put_bytes(name_in(bytes, record)),
        None => Ok(()),
    }
}

/// Where a cell places another one first: the cell's name, and the offset of the record that names the other one. The first
/// one in the file that is of this cell, or of any.
pub(crate) fn placement_of<'a>(
    bytes: &'a [u8],
    cell: Option<&[u8]>,
    target: &[u8],
) -> Option<(&'a [u8], usize)> {
    let mut place = NOWHERE;
    let mut at = 0;
    for _record in 0..bytes.len() {
        let record = record_here(bytes, at)?;
        place.take(bytes, at, record);
        if let (Kind::Sname, Some(begun)) = (record.kind, place.cell) {
            let name = name_in(bytes, begun);
            if name_in(bytes, record) == target && cell.is_none_or(|wanted| wanted == name) {
                return Some((name, at));
            }
        }
        at = record.next;
    }
    None
}

// A name without the NULs at its end.
fn trimmed(name: &[u8]) -> &[u8] {
    let mut rest = name;
    for _byte in 0..name.len() {
        match rest {
            [shorter @ .., 0] => rest = shorter,
            _ => return rest,
        }
    }
    rest
}

/// The records of a GDSII file, one after another.
#[derive(Clone, Copy)]
pub(crate) struct GdsWalk<'a> {
    bytes: &'a [u8],
    at: usize,
    // of the current element: whether it shows something, and where
    is_shape: bool,
    layer: Option<u16>,
    datatype: Option<u16>,
}

impl<'a> GdsWalk<'a> {
    /// All records of a file.
    pub(crate) fn new(bytes: &'a [u8]) -> GdsWalk<'a> {
        GdsWalk {
            bytes,
            at: 0,
            is_shape: false,
            layer: None,
            datatype: None,
        }
    }

    // What comes before the end of the current element, which is a shape or none.
    fn begun(&mut self, is_shape: bool) -> Found<'a> {
        self.is_shape = is_shape;
        Found::Other
    }

    // The shape of the current element.
    fn shape(&self) -> Found<'a> {
        match (self.is_shape, self.layer, self.datatype) {
            (true, Some(layer), Some(datatype)) => Found::Shape(Pair {
                layer: u64::from(layer),
                datatype: u64::from(datatype),
            }),
            _ => Found::Other,
        }
    }

    // What a record has.
    fn take(&mut self, record: Record) -> Found<'a> {
        let content = content_of(self.bytes, record);
        match record.kind {
            Kind::StrName => return Found::Cell(Title::Name(trimmed(content))),
            Kind::Sname => return Found::Placed(Title::Name(trimmed(content))),
            Kind::Boundary => return self.begun(true),
            Kind::Path | Kind::EndEl => return self.begun(false),
            Kind::Layer => self.layer = number_of(content),
            Kind::DataType => self.datatype = number_of(content),
            // a path of no width has no rectangles
            Kind::Width => self.is_shape = content != [0u8, 0, 0, 0].as_slice(),
            Kind::Xy => return self.shape(),
            _ => {}
        }
        Found::Other
    }

    /// What the next record has. None where there is none.
    pub(crate) fn next(&mut self) -> Option<Found<'a>> {
        let record = record_here(self.bytes, self.at)?;
        self.at = record.next;
        Some(self.take(record))
    }
}
