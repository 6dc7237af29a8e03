//! Where an OASIS file is refused: the cell, the element, its layer and its place.
use crate::note::Note;
use crate::walk::{Found, Title};
use geo_stream::NoMemory;
use layout_model::Pair;
use oas_lex::Real;
use oas_record::{Called, NameKind, OasRecord, ShapeHead, ShapeKind, record_at};

/// Where the records begin.
const FIRST: usize = 13;

/// What stands at an offset of a file. What a record leaves out has the value that was written last.
#[derive(Clone, Copy)]
struct Place {
    cell: Option<Called>,
    cell_at: usize,
    // what the element is called that was read last, and where it begins
    element: Option<&'static str>,
    element_at: usize,
    layer: Option<u64>,
    datatype: Option<u64>,
    is_relative: bool,
    x: i64,
    y: i64,
}

const NOWHERE: Place = Place {
    cell: None,
    cell_at: FIRST,
    element: None,
    element_at: FIRST,
    layer: None,
    datatype: None,
    is_relative: false,
    x: 0,
    y: 0,
};

// The record at an offset, where one is there, and the offset after it.
fn record_here(bytes: &[u8], at: usize) -> Option<(OasRecord<'_>, usize)> {
    if bytes.len() < at {
        return None;
    }
    match record_at(bytes, at, false) {
        Ok(found) => Some(found),
        Err(_bad) => None,
    }
}

// What a shape is called.
fn shape_name(kind: &ShapeKind) -> &'static str {
    match kind {
        ShapeKind::Rectangle { .. } => "rectangle",
        ShapeKind::Polygon { .. } => "polygon",
        ShapeKind::Path { .. } => "path",
        ShapeKind::Trapezoid { .. } => "trapezoid",
        ShapeKind::Ctrapezoid { .. } => "ctrapezoid",
        ShapeKind::Circle { .. } => "circle",
        ShapeKind::XGeometry { .. } => "xgeometry",
    }
}

// What the element that a record is is called.
fn element_name(record: &OasRecord) -> Option<&'static str> {
    match record {
        OasRecord::Placement { .. } => Some("placement"),
        OasRecord::Text { .. } => Some("text"),
        OasRecord::Shape { kind, .. } => Some(shape_name(kind)),
        _ => None,
    }
}

// Where a written coordinate moves a position.
fn moved(position: i64, written: Option<i64>, is_relative: bool) -> i64 {
    match written {
        Some(by) if is_relative => position.saturating_add(by),
        Some(to) => to,
        None => position,
    }
}

impl Place {
    // Takes the head of a shape.
    fn take_head(&mut self, head: &ShapeHead) {
        self.layer = head.layer.or(self.layer);
        self.datatype = head.datatype.or(self.datatype);
        self.x = moved(self.x, head.x, self.is_relative);
        self.y = moved(self.y, head.y, self.is_relative);
    }

    // Takes the record at an offset.
    fn take(&mut self, at: usize, record: &OasRecord) {
        self.element = element_name(record);
        self.element_at = at;
        match record {
            OasRecord::Cell(called) => {
                *self = NOWHERE;
                self.cell = Some(*called);
                self.cell_at = at;
            }
            OasRecord::Mode { is_relative } => self.is_relative = *is_relative,
            OasRecord::Shape { head, .. } => self.take_head(head),
            OasRecord::Name { .. } | OasRecord::End { .. } => self.cell = None,
            _ => {}
        }
    }
}

// What stands at an offset.
fn place_at(bytes: &[u8], wanted: usize) -> Place {
    let mut place = NOWHERE;
    let mut at = FIRST;
    for _record in 0..bytes.len() {
        if wanted < at {
            return place;
        }
        let Some((record, next)) = record_here(bytes, at) else {
            place.element = None;
            return place;
        };
        place.take(at, &record);
        at = next;
    }
    place
}

// Which of the elements of its kind in its cell an element is, counted from 1.
fn ordinal_of(bytes: &[u8], place: &Place, name: &str) -> u64 {
    let mut ordinal = 0u64;
    let mut at = place.cell_at;
    for _record in 0..bytes.len() {
        if place.element_at < at {
            return ordinal;
        }
        let Some((record, next)) = record_here(bytes, at) else {
            return ordinal;
        };
        if element_name(&record) == Some(name) {
            ordinal = ordinal.saturating_add(1);
        }
        at = next;
    }
    ordinal
}

// The name of a cell in a record, where it has this number. Those without one are counted.
fn name_of_number(record: &OasRecord, counted: u64, wanted: u64) -> Option<(usize, usize)> {
    match record {
        OasRecord::Name {
            kind: NameKind::Cell,
            text,
            number,
        } if number.unwrap_or(counted) == wanted => Some(*text),
        _ => None,
    }
}

// Where the name of the cell of this number is.
fn named(bytes: &[u8], wanted: u64) -> Option<(usize, usize)> {
    let mut counted = 0u64;
    let mut at = FIRST;
    for _record in 0..bytes.len() {
        let (record, next) = record_here(bytes, at)?;
        if let Some(text) = name_of_number(&record, counted, wanted) {
            return Some(text);
        }
        if let OasRecord::Name {
            kind: NameKind::Cell,
            ..
        } = &record
        {
            counted = counted.saturating_add(1);
        }
        at = next;
    }
    None
}

// Tells a cell by its name, or by its number where it has no name.
fn tell_cell(note: &mut Note, bytes: &[u8], cell: Called) -> Result<(), NoMemory> {
    note.put("cell ")?;
    let text = match cell {
        Called::Text(begin, end) => Some((begin, end)),
        Called::Number(number) => named(bytes, number),
    };
    match (text, cell) {
        (Some((begin, end)), _) => note.put_bytes(bytes.get(begin..end).unwrap_or(&[])),
        (None, Called::Number(number)) => note.put_digits(number, 1),
        (None, Called::Text(_, _)) => Ok(()),
    }
}

// Tells the element of a place.
fn tell_element(note: &mut Note, bytes: &[u8], place: &Place, steps: u32) -> Result<(), NoMemory> {
    let Some(name) = place.element else {
        return Ok(());
    };
    note.put(", ")?;
    note.put(name)?;
    note.put(" ")?;
    note.put_number(u128::from(ordinal_of(bytes, place, name)))?;
    note.put(" of the cell")?;
    if name == "placement" || name == "text" {
        return Ok(());
    }
    if let (Some(layer), Some(datatype)) = (place.layer, place.datatype) {
        note.put(", layer ")?;
        note.put_pair(layer, datatype)?;
    }
    if steps == 0 {
        return Ok(());
    }
    note.put(", at ")?;
    note.put_point(place.x, place.y, steps)?;
    note.put(" um")
}

/// Tells what stands at an offset of an OASIS file, of which a micrometre has so many grid steps. No coordinates are told
/// where there are no steps.
pub(crate) fn tell_oas(
    note: &mut Note,
    bytes: &[u8],
    at: usize,
    steps: u32,
) -> Result<(), NoMemory> {
    let place = place_at(bytes, at);
    note.put("    ")?;
    if let Some(cell) = place.cell {
        tell_cell(note, bytes, cell)?;
        tell_element(note, bytes, &place, steps)?;
        note.put("; ")?;
    }
    note.put_byte(at)?;
    note.put("\n")
}

/// The unit that START has.
pub(crate) fn unit_of(bytes: &[u8]) -> Option<Real> {
    match record_here(bytes, FIRST) {
        Some((OasRecord::Start { unit, .. }, _)) => Some(unit),
        _ => None,
    }
}

/// The records of an OASIS file, one after another.
#[derive(Clone, Copy)]
pub(crate) struct OasWalk<'a> {
    bytes: &'a [u8],
    at: usize,
    // how many names of cells without a number there were
    counted: u64,
    // what a record leaves out
    layer: Option<u64>,
    datatype: Option<u64>,
    half_width: Option<u64>,
}

impl<'a> OasWalk<'a> {
    /// All records of a file.
    pub(crate) fn new(bytes: &'a [u8]) -> OasWalk<'a> {
        OasWalk {
            bytes,
            at: FIRST,
            counted: 0,
            layer: None,
            datatype: None,
            half_width: None,
        }
    }

    // What a cell is called in a record.
    fn title(&self, called: Called) -> Title<'a> {
        match called {
            Called::Text(begin, end) => Title::Name(self.bytes.get(begin..end).unwrap_or(&[])),
            Called::Number(number) => Title::Number(number),
        }
    }

    // A cell begins: no record before it tells what is left out.
    fn begin(&mut self, called: Called) -> Found<'a> {
        self.layer = None;
        self.datatype = None;
        self.half_width = None;
        Found::Cell(self.title(called))
    }

    // The name of a cell in a record.
    fn name(&mut self, text: (usize, usize), number: Option<u64>) -> Found<'a> {
        let own = number.unwrap_or(self.counted);
        if number.is_none() {
            self.counted = self.counted.saturating_add(1);
        }
        Found::Numbered(self.bytes.get(text.0..text.1).unwrap_or(&[]), own)
    }

    // The shape of a record. A path of no width shows nothing.
    fn shape(&mut self, head: &ShapeHead, kind: &ShapeKind) -> Found<'a> {
        self.layer = head.layer.or(self.layer);
        self.datatype = head.datatype.or(self.datatype);
        if let ShapeKind::Path { half_width, .. } = kind {
            self.half_width = half_width.or(self.half_width);
            if self.half_width == Some(0) {
                return Found::Other;
            }
        }
        match (self.layer, self.datatype) {
            (Some(layer), Some(datatype)) => Found::Shape(Pair { layer, datatype }),
            _ => Found::Other,
        }
    }

    // What a record has.
    fn take(&mut self, record: &OasRecord) -> Found<'a> {
        match record {
            OasRecord::Cell(called) => self.begin(*called),
            OasRecord::Placement {
                cell: Some(called),
                ..
            } => Found::Placed(self.title(*called)),
            OasRecord::Name {
                kind: NameKind::Cell,
                text,
                number,
            } => self.name(*text, *number),
            OasRecord::Shape { head, kind } => self.shape(head, kind),
            _ => Found::Other,
        }
    }

    /// What the next record has. None where there is none.
    pub(crate) fn next(&mut self) -> Option<Found<'a>> {
        let (record, next) = record_here(self.bytes, self.at)?;
        self.at = next;
        Some(self.take(&record))
    }
}
