//! The words of the command.
ghost use Rattle.std.specs.Prelude.{◌≡◌, drop};

use std::alloc::Global;
use std::env;

// The words after the first of all, which is the program's own name.
fn after_own_name(all: Vec<String>) -> Vec<String>
    ensures { result.items ≡ drop 1 all.items }
{
    let mut words = all;
    if !words.is_empty() {
        let _own_name = words.remove(0);
    }
    words
}

/// The words of the command, without the program's own name. None where the system refuses to hand them over, as it does
/// where one of them isn't UTF-8, or memory for them runs out.
pub(crate) fn words(rt: &HostRuntime, alloc: Global) -> Option<Vec<String>> {
    let arguments = env::args(rt).ok()?;
    let all = arguments.collect(alloc).ok()?;
    Some(after_own_name(all))
}
