//! A stripe, and a shot's rows in it.
ghost use Rattle.std.specs.Prelude.{◌≡◌, ◌<ℤ◌, ◌*ℤ◌, ◌+ℤ◌, pos, IfSome, IfNone};
ghost use Rattle.half_grid.specs.Trapezoids.{IsShot};
ghost use Rattle.field_split.specs.Cutting.{IsNearFieldLine, rows, in_stripe};
ghost use Rattle.field_split.specs.Fields.{IsFieldSize};
ghost use Rattle.field_split.specs.Pieces.{shape_of};

use crate::part::Part;
use crate::parts::Rows;
use half_grid::Trap;

/// A stripe of fields of one size, by its number.
#[derive(Clone, Copy, Debug)]
pub(crate) struct Stripe {
    pub(crate) size: i64,
    pub(crate) number: i64,
    ghost sized: { IsFieldSize size },
    ghost low: { IsNearFieldLine (number *ℤ size) },
    ghost high: { IsNearFieldLine ((number +ℤ pos 1) *ℤ size) },
}

impl Stripe {
    // Its rows.
    fn rows(self) -> Rows
        ensures { result ≡ rows (self.number *ℤ self.size) ((self.number +ℤ pos 1) *ℤ self.size) }
    {
        let y0 = self.number * self.size;
        Rows {
            y0,
            y1: y0 + self.size,
        }
    }
}

/// The shot's rows in the stripe, where it has any there.
pub(crate) fn in_stripe(shot: &Trap, stripe: Stripe) -> Option<Part>
    ensures some { IfSome result (λ part. shape_of part ≡ in_stripe stripe.size stripe.number shot.now) }
    ensures none { IfNone result ((in_stripe stripe.size stripe.number shot.now).y0 <ℤ (in_stripe stripe.size stripe.number shot.now).y1 → ⊥) }
    ensures shot { IsShot shot.now }
{
    let rows = stripe.rows();
    let (y0, y1) = (shot.y0().max(rows.y0), shot.y1().min(rows.y1));
    if y1 <= y0 {
        return None;
    }
    Some(Part {
        y0,
        y1,
        left: shot.left(),
        right: shot.right(),
    })
}
