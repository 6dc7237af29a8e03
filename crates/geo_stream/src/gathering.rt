//! A stream's list as a `Vec`.
ghost use Rattle.std.specs.Prelude.{◌≡◌, List, IfOk};
ghost use Rattle.geo_stream.specs.Stream.{HasList};

use crate::{NoMemory, Stream};
use std::alloc::Global;

/// The list that the stream stands for. It is refused only where memory runs out.
pub fn gather<S: Stream + Drop>(alloc: Global, mut stream: S) -> Result<Vec<S::Item>, NoMemory>
where
    S::Item: Drop,
    requires { HasList S.stands_for stream }
    ensures { (items : List S.Item) → S.stands_for stream items → IfOk result (λ all. all.items ≡ items) }
{
    let mut all = Vec::new(alloc);
    while let Some(item) = stream.next() {
        all.push(item)?;
    }
    Ok(all)
}
