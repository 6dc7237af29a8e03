//! The table of CTRAPEZOID types.
ghost use Rattle.std.specs.Prelude.{◌≡◌};
ghost use Rattle.oas_shapes.specs.Figures.{uses_width as has_width, uses_height as has_height, rectangle_marks, level_marks, upright_marks, triangle_marks, ctrapezoid_marks};
ghost use Rattle.oas_shapes.specs.Sketches.{marks_of};

/// A coordinate of a corner, by the width and the height.
#[derive(Clone, Copy)]
pub(crate) enum Mark {
    O,
    W,
    H,
    WLessH,
    HLessW,
    TwiceW,
    TwiceH,
}

use Mark::{H, HLessW, O, TwiceH, TwiceW, W, WLessH};

/// The corners of a shape, each by two coordinates.
#[derive(Clone, Copy)]
pub(crate) enum Sketch {
    Three((Mark, Mark), (Mark, Mark), (Mark, Mark)),
    Four((Mark, Mark), (Mark, Mark), (Mark, Mark), (Mark, Mark)),
}

use Sketch::{Four, Three};

/// Whether a CTRAPEZOID of this type uses a width.
pub fn uses_width(kind: u64) -> bool
    ensures { result ≡ has_width kind }
{
    !(kind == 20 || kind == 21)
}

/// Whether a CTRAPEZOID of this type uses a height.
pub fn uses_height(kind: u64) -> bool
    ensures { result ≡ has_height kind }
{
    kind < 16 || kind == 20 || kind == 21 || kind == 24
}

pub(crate) fn rectangle() -> Sketch
    ensures { marks_of result ≡ rectangle_marks }
{
    Four((O, O), (O, H), (W, H), (W, O))
}

// Types 0 to 7.
fn level(kind: u64) -> Sketch
    ensures { marks_of result ≡ level_marks kind }
{
    match kind {
        0 => Four((O, O), (O, H), (WLessH, H), (W, O)),
        1 => Four((O, O), (O, H), (W, H), (WLessH, O)),
        2 => Four((O, O), (H, H), (W, H), (W, O)),
        3 => Four((H, O), (O, H), (W, H), (W, O)),
        4 => Four((O, O), (H, H), (WLessH, H), (W, O)),
        5 => Four((H, O), (O, H), (W, H), (WLessH, O)),
        6 => Four((O, O), (H, H), (W, H), (WLessH, O)),
        _ => Four((H, O), (O, H), (WLessH, H), (W, O)),
    }
}

// Types 8 to 15.
fn upright(kind: u64) -> Sketch
    ensures { marks_of result ≡ upright_marks kind }
{
    match kind {
        8 => Four((O, O), (O, H), (W, HLessW), (W, O)),
        9 => Four((O, O), (O, HLessW), (W, H), (W, O)),
        10 => Four((O, O), (O, H), (W, H), (W, W)),
        11 => Four((O, W), (O, H), (W, H), (W, O)),
        12 => Four((O, O), (O, H), (W, HLessW), (W, W)),
        13 => Four((O, W), (O, HLessW), (W, H), (W, O)),
        14 => Four((O, O), (O, HLessW), (W, H), (W, W)),
        _ => Four((O, W), (O, H), (W, HLessW), (W, O)),
    }
}

// Types 16 to 23.
fn triangle(kind: u64) -> Sketch
    ensures { marks_of result ≡ triangle_marks kind }
{
    match kind {
        16 => Three((O, O), (O, W), (W, O)),
        17 => Three((O, O), (O, W), (W, W)),
        18 => Three((O, O), (W, W), (W, O)),
        19 => Three((O, W), (W, W), (W, O)),
        20 => Three((O, O), (H, H), (TwiceH, O)),
        21 => Three((O, H), (TwiceH, H), (H, O)),
        22 => Three((O, O), (O, TwiceW), (W, W)),
        _ => Three((O, W), (W, TwiceW), (W, O)),
    }
}

pub(crate) fn ctrapezoid(kind: u64) -> Sketch
    ensures { marks_of result ≡ ctrapezoid_marks kind }
{
    if kind < 8 {
        return level(kind);
    }
    if kind < 16 {
        return upright(kind);
    }
    if kind < 24 {
        return triangle(kind);
    }
    if kind == 24 {
        return rectangle();
    }
    Four((O, O), (O, W), (W, W), (W, O))
}
