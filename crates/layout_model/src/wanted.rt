//! The pairs whose shapes are wanted of a file.
ghost use Rattle.std.specs.Prelude.{◌≡◌, IfOk};
ghost use Rattle.std.specs.List.{list_any};
ghost use Rattle.layout_model.specs.Pairs.{same_pair, AreSamePairs, AreSorted};

use crate::pair::Pair;
use geo_stream::NoMemory;
use std::alloc::Global;

/// The pairs in ascending order.
pub fn sorted_pairs(alloc: Global, pairs: &[Pair]) -> Result<Vec<Pair>, NoMemory>
    ensures same { IfOk result (λ sorted. AreSamePairs pairs.now sorted.items) }
    ensures order { IfOk result (λ sorted. AreSorted sorted.items) }
{
    let mut sorted = Vec::from_slice(alloc, pairs)?;
    sorted.sort()?;
    Ok(sorted)
}

/// Whether the pair is among these, which are in ascending order. It takes no memory, and the logarithm of their number
/// in time.
#[inline(always)]
pub fn is_among(sorted: &[Pair], pair: Pair) -> bool
    requires { AreSorted sorted.now }
    ensures { result ≡ list_any (same_pair pair) sorted.now }
{
    sorted.binary_search(&pair).is_ok()
}
