//! What the lines of a deck say.
ghost use Rattle.layout_model.specs.Names.{IsName};

use half_grid::{Frame, Limits};

/// The four operations on two areas.
#[derive(Clone, Copy, Debug, PartialEq, Eq)]
pub(crate) enum Operator {
    Or,
    And,
    Sub,
    Xor,
}

/// The two ways of sizing.
#[derive(Clone, Copy, Debug, PartialEq, Eq)]
pub(crate) enum Sizing {
    Grow,
    Shrink,
}

/// The name of a cell, lent from a line.
#[derive(Clone, Copy, Debug)]
pub(crate) struct CellWord<'a> {
    pub bytes: &'a [u8],
    ghost is_name: { IsName bytes.now },
}

/// A setting of the deck.
#[derive(Clone, Copy, Debug)]
pub(crate) enum Setting<'a> {
    /// Grid steps per micrometre.
    Unit(i64),
    /// The top cell.
    Top(CellWord<'a>),
    /// Rows per band.
    Band(i64),
    /// The limits of a shot.
    Limits(Limits),
    /// The frame for inverting.
    Frame(Frame),
}

/// How a definition's area is made, its operands by name.
#[derive(Clone, Copy, Debug)]
pub(crate) enum Operation<'a> {
    /// Layer and datatype.
    Layer(i64, i64),
    /// Two areas combined.
    Combine(Operator, &'a str, &'a str),
    /// An area sized by these half sides in x and y.
    Resize(Sizing, &'a str, i64, i64),
    /// What an area leaves of the frame.
    Invert(&'a str),
    /// The mirror image at this X.
    Mirror(&'a str, i64),
}

/// An output: the name of its area, its file, layer and datatype.
#[derive(Clone, Copy, Debug)]
pub(crate) struct Writing<'a> {
    pub name: &'a str,
    pub file: &'a str,
    pub layer: i64,
    pub datatype: i64,
}

/// What a line says.
#[derive(Clone, Copy, Debug)]
pub(crate) enum Statement<'a> {
    Set(Setting<'a>),
    Define(&'a str, Operation<'a>),
    Write(Writing<'a>),
}
