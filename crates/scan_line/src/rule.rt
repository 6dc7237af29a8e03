//! Rules: which tiles are taken, by their two windings.
ghost use Rattle.std.specs.Prelude.{◌≡◌, ◌↔◌, IsTrue};
ghost use Rattle.scan_line.specs.Rules.{IsRule, IsWinding, Takes};

use std::marker::Model;

/// Which tiles a scan takes, by their two windings. Contracts see the kept function.
#[derive(Drop)]
pub struct Rule<F> {
    asked: F,
}

impl<F> Model for Rule<F> {
    ghost Value = { F };

    ghost view = { λ rule. rule.asked };
}

impl<F: Fn(i128, i128) -> bool> Rule<F> {
    /// The rule that takes two windings where the function answers true. The function may be called on all pairs
    /// within `2^64` of 0, its promise allows one answer on each of them, and that answer is false at `(0, 0)`.
    pub fn new(asked: F) -> Rule<F>
        requires { IsRule (F.pre asked) (F.post asked) }
        ensures { result ≡ asked }
    {
        Rule { asked }
    }

    /// The function's answer. Both windings are within `2^64` of 0.
    pub fn asks(&self, a: i128, b: i128) -> bool
        requires rule { IsRule (F.pre self.now) (F.post self.now) }
        requires first { IsWinding a }
        requires second { IsWinding b }
        ensures { IsTrue result ↔ Takes (F.post self.now) a b }
    {
        (self.asked)(a, b)
    }
}
