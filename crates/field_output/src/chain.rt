//! Numbers that are linked, each to a greater one.
ghost use Rattle.std.specs.Prelude.{ℕ, ◌-◌, ◌^◌, ◌<◌, List, length};
ghost use Rattle.field_output.specs.Chains.{IsChain};
ghost use Rattle.field_output.specs.StreamLaws.{Chain-one_list, Chain-no_longer, Chain-bounded};

use geo_stream::Stream;

/// The numbers of a chain in ascending order. The item at the place of a number is the next number, and no number is at
/// the end of the items.
#[derive(Clone, Copy, Debug)]
pub(crate) struct Chain<'a> {
    next: &'a [u32],
    at: u32,
    ghost fits: { length next.now < 2 ^ 64 },
}

impl<'a> Chain<'a> {
    /// The chain from this number on.
    pub(crate) fn new(next: &'a [u32], at: u32) -> Chain<'a>
        ensures { (numbers : List ℕ) → IsChain next.entry.now 0 at numbers
            → ⟦<Chain<'a> as Stream>⟧.stands_for result numbers }
    {
        Chain { next, at }
    }
}

impl<'a> Stream for Chain<'a> {
    type Item = u32;

    ghost stands_for = { λ chain numbers. IsChain chain.next.now 0 chain.at numbers };

    ghost size = { λ chain. length chain.next.now - chain.at };

    ghost most = { 2 ^ 64 };

    fn next(&mut self) -> Option<u32> {
        let number = self.at;
        if self.next.len() <= number as usize {
            return None;
        }
        self.at = self.next[number as usize];
        Some(number)
    }

    ghost one_list = { λ chain xs ys. Chain-one_list chain.next.now chain.at xs ys };

    ghost no_longer = { λ chain xs. Chain-no_longer chain.next.now chain.at xs };

    ghost bounded = { λ chain xs p. Chain-bounded (length chain.next.now) chain.at (2 ^ 64) chain.fits };
}
