//! Lists of numbers, filled anew within the memory that they have.
ghost use Rattle.std.specs.Prelude.{◌≡◌, ℕ, ◌+◌, ◌≤◌, All, List, IsSorted, length, vec_capacity};
ghost use Rattle.std.specs.Ordering.{nat_cmp};
ghost use Rattle.field_output.specs.Chains.{IsChain};
ghost use Rattle.field_output.specs.Meeting.{IsPlaced, numbers, comes_in, meets};
ghost use Rattle.geo_stream.specs.Merged.{merge};

use crate::chain::Chain;
use crate::places::Span;
use geo_stream::{FromSlice, Merged, Stream};
use half_grid::Trap;

// Fills a list with what a stream gives.
fn fill<S: Stream<Item = u32>>(numbers: &mut Vec<u32>, stream: &mut S)
    requires { (items : List ℕ) × S.stands_for stream.old items × (length items ≤ vec_capacity numbers.old) }
    ensures items { (items : List ℕ) → S.stands_for stream.old items → numbers.new.items ≡ items }
    ensures capacity { vec_capacity numbers.new ≡ vec_capacity numbers.old }
{
    numbers.clear();
    while let Some(number) = stream.next() {
        numbers.push_reserved(number);
    }
}

/// Fills a list with the numbers of an ascending list and of a chain, in ascending order.
pub(crate) fn fill_merged(chosen: &mut Vec<u32>, carried: &[u32], next: &[u32], head: u32)
    requires carried { IsSorted nat_cmp carried.now }
    requires chain { (numbers : List ℕ) × IsChain next.now 0 head numbers }
    requires room { (numbers : List ℕ) → IsChain next.now 0 head numbers
        → length (merge nat_cmp carried.now numbers) ≤ vec_capacity chosen.old }
    ensures merged { (numbers : List ℕ) → IsChain next.now 0 head numbers
        → chosen.new.items ≡ merge nat_cmp carried.now numbers }
    ensures capacity { vec_capacity chosen.new ≡ vec_capacity chosen.old }
{
    let mut merged = Merged::new(FromSlice::new(carried), Chain::new(next, head));
    fill(chosen, &mut merged);
}

/// Fills a list with those of the shots that meet the stripe which come into the next.
pub(crate) fn keep_carried(
    carried: &mut Vec<u32>,
    chosen: &[u32],
    shots: &[Trap],
    span: Span,
    stripe: usize,
)
    requires placed { All (IsPlaced span.size span.first span.count) shots.now }
    requires chosen { chosen.now ≡ numbers (meets span.size span.first stripe) 0 shots.now }
    requires room { length shots.now ≤ vec_capacity carried.old }
    ensures numbers { carried.new.items ≡ numbers (comes_in span.size span.first (stripe + 1)) 0 shots.now }
    ensures capacity { vec_capacity carried.new ≡ vec_capacity carried.old }
{
    carried.clear();
    for number in chosen {
        if stripe < span.end(&shots[*number as usize]) {
            carried.push_reserved(*number);
        }
    }
}
