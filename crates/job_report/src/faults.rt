//! Why a shot file is refused.
use half_grid::Tile;
use shot_reader::ShotBad;
use shot_repeat::PackBad;

/// Why a shot file is refused.
#[derive(Clone, Copy, Debug, PartialEq, Eq)]
pub enum CheckFault {
    /// It has more than 268,435,456 bytes.
    Long,
    /// It isn't the text of a list of shots. This is its first fault.
    Bad(ShotBad),
    /// Its head has another number than twice the deck's unit, or it has shots and their pair isn't the output's.
    Head,
    /// Its shots fit the limits, but don't cover the output's area exactly. This is the lowest tile, leftmost in its
    /// row, that is in another number of shots than it should be, its number of shots, and its wanted number. It comes
    /// for `check` alone.
    Miscovered(Tile, u64, u64),
    /// Its shot of this number, from 0, is the first that doesn't fit the limits. It comes for `check` alone.
    TooLarge(usize),
    /// It stands for no list of shots as a packed file, or for too many. This is its first fault. It comes for `unpack`
    /// alone.
    Pack(PackBad),
    /// Its shot of this number, from 0, is the first that is more than 16,777,216 half units high, or in a box of more
    /// than 33,554,432. It comes for `split` alone.
    Wide(usize),
    /// Its shots meet this number of stripes, from the lowest to the highest, which is more than 4,096. It comes for
    /// `split` alone.
    Stripes(u128),
}
