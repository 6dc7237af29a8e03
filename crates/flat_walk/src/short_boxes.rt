//! Boxes in 16 bytes.
ghost use Rattle.std.specs.Prelude.{◌≡◌, ◌^◌, ◌≤ℤ◌, IfSome, false};
ghost use Rattle.cell_tree.specs.Boxes.{IsUpTo, IsBoxUpTo};
ghost use Rattle.layout_model.specs.Kept.{IsShort};
ghost use Rattle.flat_walk.specs.Blocks.{IsRound, IsBeside};
ghost use Rattle.flat_walk.specs.ShortBoxes.{side_of, IsKeptSide, IsKeptBox};

use half_grid::Frame;
use std::marker::Model;

// How far from 0 a side is at most, in half units.
const FAR: i64 = 1 << 53;

// The least number of 32 bits.
const LEAST: i64 = -(1 << 31);

// The greatest one.
const GREATEST: i64 = (1 << 31) - 1;

/// A box in 16 bytes, where a `Frame` takes 32, since each shape and placement of a layout has one. Sides are in half units.
/// The least and the greatest number of 32 bits stand for the farthest places that a side may have. Contracts see the box.
#[derive(Clone, Copy)]
pub(crate) struct ShortBox {
    x0: i32,
    y0: i32,
    x1: i32,
    y1: i32,
}

impl Model for ShortBox {
    ghost use Rattle.half_grid.specs.declared.extent.Frame.{Frame as AFrame};

    ghost Value = { AFrame };

    ghost use Rattle.flat_walk.specs.ShortBoxes.{frame_of, box_from, AreShort};
    ghost use Rattle.flat_walk.specs.BoxLaws.{same_box};

    ghost view = { frame_of };

    ghost invariant = { AreShort };

    ghost inverse = { box_from };

    ghost inverse_ok = { same_box };
}

// The place of a side.
#[inline(always)]
fn place(side: i32) -> i64
    ensures { result ≡ side_of side }
{
    if side == i32::MIN {
        return -FAR;
    }
    if side == i32::MAX {
        return FAR;
    }
    side as i64
}

// A left or bottom side in 32 bits, at its place or lower.
fn low_side(at: i64) -> i32
    requires { IsUpTo (2 ^ 53) at }
    ensures short { IsShort result }
    ensures around { side_of result ≤ℤ at }
    ensures same { IsKeptSide at → side_of result ≡ at }
    ensures near { IsUpTo (2 ^ 53) (side_of result) }
{
    if at <= LEAST {
        return i32::MIN;
    }
    if at >= GREATEST {
        return i32::MAX - 1;
    }
    at as i32
}

// A right or top side in 32 bits, at its place or higher.
fn high_side(at: i64) -> i32
    requires { IsUpTo (2 ^ 53) at }
    ensures short { IsShort result }
    ensures around { at ≤ℤ side_of result }
    ensures same { IsKeptSide at → side_of result ≡ at }
    ensures near { IsUpTo (2 ^ 53) (side_of result) }
{
    if at >= GREATEST {
        return i32::MAX;
    }
    if at <= LEAST {
        return i32::MIN + 1;
    }
    at as i32
}

/// Rows from one kept side up to another.
#[derive(Clone, Copy)]
pub(crate) struct KeptRows {
    low: i32,
    high: i32,
}

impl KeptRows {
    /// Rows among which are those from `low` up to below `high`, if these are near enough to be kept.
    pub(crate) fn round(low: i64, high: i64) -> Option<KeptRows>
        ensures low { IfSome result (λ rows. side_of rows.low ≤ℤ low) }
        ensures high { IfSome result (λ rows. high ≤ℤ side_of rows.high) }
    {
        if low < -FAR || FAR < low || high < -FAR || FAR < high {
            return None;
        }
        Some(KeptRows {
            low: low_side(low),
            high: high_side(high),
        })
    }
}

impl ShortBox {
    /// One round a box: each side is at its place, or farther out where 32 bits don't hold that.
    pub(crate) fn round(around: Frame) -> ShortBox
        requires { IsBoxUpTo (2 ^ 53) around }
        ensures around { IsRound result around }
        ensures near { IsBoxUpTo (2 ^ 53) result }
        ensures same { IsKeptBox around → result ≡ around }
    {
        ShortBox {
            x0: low_side(around.x0),
            y0: low_side(around.y0),
            x1: high_side(around.x1),
            y1: high_side(around.y1),
        }
    }

    /// Whether some of its rows may be among these. By one comparison, since nothing tells how the next box compares.
    #[inline(always)]
    pub(crate) fn meets(&self, rows: KeptRows) -> bool
        ensures { result ≡ false → IsBeside rows self.now }
    {
        let above = self.y0 as i64 - rows.high as i64;
        let below = rows.low as i64 - self.y1 as i64;
        above.max(below) < 0
    }

    /// The box.
    #[inline(always)]
    pub(crate) fn frame(&self) -> Frame
        ensures { result ≡ self.now }
    {
        Frame {
            x0: place(self.x0),
            y0: place(self.y0),
            x1: place(self.x1),
            y1: place(self.y1),
        }
    }
}
