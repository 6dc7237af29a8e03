//! The names of the files of stripes.
ghost use Rattle.std.specs.Prelude.{◌≡◌, ◌+◌, ◌≤◌, IfOk, length, string_bytes, string_capacity};
ghost use Rattle.field_output.specs.Stripes.{stripe_name};

use geo_stream::NoMemory;
use itoa::Buffer;
use std::alloc::Global;

// How long a point and a number of a stripe are at most.
const LONGEST_ENDING: usize = 21;

/// An empty text with room for the name of each stripe.
pub(crate) fn room_for_names(alloc: Global, base: &str) -> Result<String, NoMemory>
    ensures { IfOk result (λ name. length base.now + 21 ≤ string_capacity name) }
{
    let Some(room) = base.len().checked_add(LONGEST_ENDING) else {
        return Err(NoMemory);
    };
    Ok(String::with_capacity(alloc, room)?)
}

/// Makes the text the name of the file of a stripe.
pub(crate) fn spell_name(name: &mut String, base: &str, stripe: i64)
    requires { length base.now + 21 ≤ string_capacity name.old }
    ensures name { string_bytes name.new ≡ stripe_name base.now stripe }
    ensures capacity { string_capacity name.old ≤ string_capacity name.new }
{
    let mut digits = Buffer::new();
    name.clear();
    name.push_str(base).unwrap();
    name.push_str(".").unwrap();
    name.push_str(digits.format(stripe)).unwrap();
}
