//! The two windings along a row.
ghost use Rattle.std.specs.Prelude.{◌≡◌, ◌↔◌, ◌+ℤ◌, if◌then◌else◌, pos, neg_ℤ, IsTrue};
ghost use Rattle.half_grid.specs.declared.border.Operand.TheVariants.{A, B};
ghost use Rattle.scan_line.specs.Rules.{IsRule, Takes};
ghost use Rattle.scan_line.specs.Windings.{HasNext, adds};

use crate::rule::Rule;
use half_grid::{Edge, Operand};

/// The windings of both operands. A list has fewer than `2^63` edges.
#[derive(Clone, Copy)]
pub(crate) struct Windings {
    pub(crate) a: i64,
    pub(crate) b: i64,
}

// The winding right of one more edge of its operand.
#[inline]
fn crossed(winding: i64, up: bool) -> i64
    requires { HasNext winding }
    ensures { result ≡ winding +ℤ (if up then pos 1 else neg_ℤ (pos 1)) }
{
    if up {
        return winding + 1;
    }
    winding - 1
}

impl Windings {
    /// Left of all edges.
    pub(crate) fn none() -> Windings
        ensures a { result.a ≡ pos 0 }
        ensures b { result.b ≡ pos 0 }
    {
        Windings { a: 0, b: 0 }
    }

    /// Right of one more edge.
    #[inline]
    pub(crate) fn past(self, edge: &Edge) -> Windings
        requires a { HasNext self.a }
        requires b { HasNext self.b }
        ensures a { result.a ≡ self.a +ℤ adds A edge.now }
        ensures b { result.b ≡ self.b +ℤ adds B edge.now }
    {
        match edge.operand() {
            Operand::A => Windings {
                a: crossed(self.a, edge.is_up()),
                b: self.b,
            },
            Operand::B => Windings {
                a: self.a,
                b: crossed(self.b, edge.is_up()),
            },
        }
    }
}

/// Whether the rule takes the windings.
#[inline]
pub(crate) fn takes<F: Fn(i128, i128) -> bool>(rule: &Rule<F>, windings: Windings) -> bool
    requires { IsRule (F.pre rule.now) (F.post rule.now) }
    ensures { IsTrue result ↔ Takes (F.post rule.now) windings.a windings.b }
{
    rule.asks(i128::from(windings.a), i128::from(windings.b))
}
