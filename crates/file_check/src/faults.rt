//! Why the check of shot files ends early.
use half_grid::Tile;
use shot_reader::ShotBad;

/// Why a shot file is refused.
#[derive(Clone, Copy, Debug, PartialEq, Eq)]
pub enum CheckFault {
    /// It has more than 268,435,456 bytes.
    Long,
    /// It isn't the text of a list of shots. This is its first fault.
    Bad(ShotBad),
    /// Its head has another number than twice the deck's unit, or it has shots and their pair isn't the output's.
    Head,
    /// Its shots fit the limits, but don't cover the output's area exactly. This is the lowest tile, leftmost in its
    /// row, that is in another number of shots than it should be, its number of shots, and its wanted number.
    Miscovered(Tile, u64, u64),
    /// The shot of this place, counted from 0, is the first that doesn't fit the limits.
    TooLarge(usize),
}

/// Why the check of shot files ended early.
#[derive(Clone, Copy, Debug, PartialEq, Eq)]
pub enum CheckBad {
    /// The file of the output of this place, counted from 0, is refused.
    Refused(usize, CheckFault),
    /// A read failed, or the file of an output isn't there.
    ReadFault,
}
