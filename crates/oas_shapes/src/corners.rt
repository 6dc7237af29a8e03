//! The corners of figures, and their outlines.
ghost use Rattle.std.specs.Prelude.{◌≡◌, ◌↔◌, pos, neg_ℤ, ◌+ℤ◌, ◌-ℤ◌, map, [], ◌∷◌, IsTrue, IfSome, IfNone};
ghost use Rattle.std.specs.Int.{int_min, int_max};
ghost use Rattle.oas_shapes.specs.Plane.{IsNearInSteps, IsNearInHalves, doubled as in_halves};
ghost use Rattle.oas_shapes.specs.Ways.{way_of};
ghost use Rattle.oas_shapes.specs.Figures.{coordinate as coordinate_of, corner as corner_of, horizontal_corners, vertical_corners, figure_corners, IsSize, IsSized};
ghost use Rattle.oas_shapes.specs.Sketches.{marks_of, corners_of, points_of};
ghost use Rattle.oas_shapes.specs.Outlines.{outline_of, figure_outline};
ghost use Rattle.oas_shapes.specs.Rules.{AreNear};
ghost use Rattle.layout_model.specs.Images.{moved as place_after};

use crate::figures::Figure;
use crate::tables::{Mark, Sketch, ctrapezoid, rectangle, uses_height, uses_width};
use crate::wide::{Wide, doubled, moved};
use half_grid::Point;

// The corners of a figure in grid steps, seen from its position.
#[derive(Clone, Copy)]
enum Ring {
    Three(Wide, Wide, Wide),
    Four(Wide, Wide, Wide, Wide),
}

/// The corners of a figure in half units, at its place.
#[derive(Clone, Copy)]
pub(crate) enum Outline {
    Three(Point, Point, Point),
    Four(Point, Point, Point, Point),
}

// The box of a figure.
#[derive(Clone, Copy)]
struct Size {
    width: u64,
    height: u64,
}

// A delta of a trapezoid.
#[derive(Clone, Copy)]
struct Delta {
    by: i64,
}

// A side of its box, and a delta by which a side of the trapezoid is shorter.
#[derive(Clone, Copy)]
struct Stretch {
    length: u64,
    by: i64,
}

impl Delta {
    fn rise(self) -> i128
        ensures { result ≡ int_max self.by (pos 0) }
    {
        i128::from(self.by).max(0)
    }

    fn fall(self) -> i128
        ensures { result ≡ int_max (neg_ℤ self.by) (pos 0) }
    {
        (-i128::from(self.by)).max(0)
    }
}

impl Stretch {
    fn after_fall(self) -> i128
        ensures { result ≡ pos self.length +ℤ int_min self.by (pos 0) }
    {
        i128::from(self.length) + i128::from(self.by.min(0))
    }

    fn after_rise(self) -> i128
        ensures { result ≡ pos self.length -ℤ int_max self.by (pos 0) }
    {
        i128::from(self.length) - i128::from(self.by.max(0))
    }
}

impl Size {
    #[inline(always)]
    fn coordinate(self, mark: Mark) -> i128
        ensures { result ≡ coordinate_of (pos self.width) (pos self.height) mark }
    {
        let w = i128::from(self.width);
        let h = i128::from(self.height);
        match mark {
            Mark::O => 0,
            Mark::W => w,
            Mark::H => h,
            Mark::WLessH => w - h,
            Mark::HLessW => h - w,
            Mark::TwiceW => w + w,
            Mark::TwiceH => h + h,
        }
    }

    #[inline(always)]
    fn corner(self, marks: (Mark, Mark)) -> Wide
        ensures { way_of result ≡ corner_of (pos self.width) (pos self.height) marks }
    {
        let (x, y) = marks;
        Wide {
            x: self.coordinate(x),
            y: self.coordinate(y),
        }
    }

    #[inline(always)]
    fn ring(self, sketch: Sketch) -> Ring
        ensures { corners_of result ≡ map (corner_of (pos self.width) (pos self.height)) (marks_of sketch) }
    {
        match sketch {
            Sketch::Three(a, b, c) => Ring::Three(self.corner(a), self.corner(b), self.corner(c)),
            Sketch::Four(a, b, c, d) => Ring::Four(
                self.corner(a),
                self.corner(b),
                self.corner(c),
                self.corner(d),
            ),
        }
    }

    fn horizontal(self, a: Delta, b: Delta) -> Ring
        ensures { corners_of result ≡ horizontal_corners (pos self.width) (pos self.height) a.by b.by }
    {
        let h = i128::from(self.height);
        let top = Stretch {
            length: self.width,
            by: b.by,
        };
        Ring::Four(
            Wide { x: a.fall(), y: 0 },
            Wide { x: a.rise(), y: h },
            Wide {
                x: top.after_fall(),
                y: h,
            },
            Wide {
                x: top.after_rise(),
                y: 0,
            },
        )
    }

    fn vertical(self, a: Delta, b: Delta) -> Ring
        ensures { corners_of result ≡ vertical_corners (pos self.width) (pos self.height) a.by b.by }
    {
        let w = i128::from(self.width);
        let side = Stretch {
            length: self.height,
            by: b.by,
        };
        Ring::Four(
            Wide { x: 0, y: a.rise() },
            Wide {
                x: 0,
                y: side.after_fall(),
            },
            Wide {
                x: w,
                y: side.after_rise(),
            },
            Wide { x: w, y: a.fall() },
        )
    }
}

// The corners of a figure.
#[inline(always)]
fn ring_of(figure: Figure) -> Ring
    ensures { corners_of result ≡ figure_corners figure }
{
    match figure {
        Figure::Rectangle { width, height } => Size { width, height }.ring(rectangle()),
        Figure::Horizontal {
            width,
            height,
            a,
            b,
        } => Size { width, height }.horizontal(Delta { by: a }, Delta { by: b }),
        Figure::Vertical {
            width,
            height,
            a,
            b,
        } => Size { width, height }.vertical(Delta { by: a }, Delta { by: b }),
        Figure::Ctrapezoid {
            kind,
            width,
            height,
        } => Size { width, height }.ring(ctrapezoid(kind)),
    }
}

/// Whether a width or a height is at most 2^40.
#[inline(always)]
pub(crate) fn is_size(length: u64) -> bool
    ensures { IsTrue result ↔ IsSize length }
{
    length <= 1 << 40
}

/// Whether those of its sizes that count are at most 2^40.
#[inline(always)]
pub(crate) fn is_sized(figure: Figure) -> bool
    ensures { IsTrue result ↔ IsSized figure }
{
    match figure {
        Figure::Rectangle { width, height } => is_size(width) && is_size(height),
        Figure::Horizontal { width, height, .. } => is_size(width) && is_size(height),
        Figure::Vertical { width, height, .. } => is_size(width) && is_size(height),
        Figure::Ctrapezoid {
            kind,
            width,
            height,
        } => (!uses_width(kind) || is_size(width)) && (!uses_height(kind) || is_size(height)),
    }
}

// A corner in half units, if it is near 0.
#[inline(always)]
fn placed(at: Point, corner: Wide) -> Option<Point>
    requires { IsNearInSteps at }
    ensures some { IfSome result (λ p. (p ≡ in_halves (place_after at (way_of corner))) × IsNearInHalves p) }
    ensures none { IfNone result (¬ IsNearInHalves (in_halves (place_after at (way_of corner)))) }
{
    match moved(at, corner) {
        Some(point) => Some(doubled(point)),
        None => None,
    }
}

#[inline(always)]
fn three(at: Point, a: Wide, b: Wide, c: Wide) -> Option<Outline>
    requires { IsNearInSteps at }
    ensures outline { IfSome result (λ o. points_of o ≡ outline_of (map (place_after at) (way_of a ∷ way_of b ∷ way_of c ∷ []))) }
    ensures near { IfSome result (λ o. AreNear (points_of o)) }
    ensures none { IfNone result (¬ AreNear (outline_of (map (place_after at) (way_of a ∷ way_of b ∷ way_of c ∷ [])))) }
{
    let Some(first) = placed(at, a) else {
        return None;
    };
    let Some(second) = placed(at, b) else {
        return None;
    };
    let Some(third) = placed(at, c) else {
        return None;
    };
    Some(Outline::Three(first, second, third))
}

#[inline(always)]
fn four(at: Point, a: Wide, b: Wide, c: Wide, d: Wide) -> Option<Outline>
    requires { IsNearInSteps at }
    ensures outline { IfSome result (λ o. points_of o ≡ outline_of (map (place_after at) (way_of a ∷ way_of b ∷ way_of c ∷ way_of d ∷ []))) }
    ensures near { IfSome result (λ o. AreNear (points_of o)) }
    ensures none { IfNone result (¬ AreNear (outline_of (map (place_after at) (way_of a ∷ way_of b ∷ way_of c ∷ way_of d ∷ [])))) }
{
    let Some(first) = placed(at, a) else {
        return None;
    };
    let Some(second) = placed(at, b) else {
        return None;
    };
    let Some(third) = placed(at, c) else {
        return None;
    };
    let Some(fourth) = placed(at, d) else {
        return None;
    };
    Some(Outline::Four(first, second, third, fourth))
}

// The outline of a ring at this position, if it is near 0.
#[inline(always)]
fn outline_of(at: Point, ring: Ring) -> Option<Outline>
    requires { IsNearInSteps at }
    ensures outline { IfSome result (λ o. points_of o ≡ outline_of (map (place_after at) (corners_of ring))) }
    ensures near { IfSome result (λ o. AreNear (points_of o)) }
    ensures none { IfNone result (¬ AreNear (outline_of (map (place_after at) (corners_of ring)))) }
{
    match ring {
        Ring::Three(a, b, c) => three(at, a, b, c),
        Ring::Four(a, b, c, d) => four(at, a, b, c, d),
    }
}

/// The outline of a figure at this position, if it is near 0.
#[inline(always)]
pub(crate) fn outline_at(at: Point, figure: Figure) -> Option<Outline>
    requires { IsNearInSteps at }
    ensures outline { IfSome result (λ o. points_of o ≡ figure_outline at figure) }
    ensures near { IfSome result (λ o. AreNear (points_of o)) }
    ensures none { IfNone result (¬ AreNear (figure_outline at figure)) }
{
    outline_of(at, ring_of(figure))
}
