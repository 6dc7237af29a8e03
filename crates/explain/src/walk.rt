//! What the records of a layout have: its cells, the cells that they place, and the layers of their shapes.
use crate::gdsii::GdsWalk;
use crate::oasis::OasWalk;
use layout_model::Pair;

/// What a cell is called.
#[derive(Clone, Copy)]
pub(crate) enum Title<'a> {
    /// By its name.
    Name(&'a [u8]),
    /// By the number of its name.
    Number(u64),
}

/// What a record has.
#[derive(Clone, Copy)]
pub(crate) enum Found<'a> {
    /// A cell begins.
    Cell(Title<'a>),
    /// The current cell places another one.
    Placed(Title<'a>),
    /// The current cell has a shape that shows something.
    Shape(Pair),
    /// This number is that of a name of a cell.
    Numbered(&'a [u8], u64),
    /// Nothing of these.
    Other,
}

/// The records of a layout, one after another.
#[derive(Clone, Copy)]
pub(crate) enum Walk<'a> {
    /// Those of a GDSII file.
    Gds(GdsWalk<'a>),
    /// Those of an OASIS file.
    Oas(OasWalk<'a>),
}

impl<'a> Walk<'a> {
    /// All records of a file.
    pub(crate) fn new(bytes: &'a [u8]) -> Walk<'a> {
        match bytes.first() {
            Some(b'%') => Walk::Oas(OasWalk::new(bytes)),
            _ => Walk::Gds(GdsWalk::new(bytes)),
        }
    }

    /// What the next record has. None where there is none.
    pub(crate) fn next(&mut self) -> Option<Found<'a>> {
        match self {
            Walk::Gds(walk) => walk.next(),
            Walk::Oas(walk) => walk.next(),
        }
    }
}
