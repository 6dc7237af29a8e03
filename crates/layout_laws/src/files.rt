//! What holds of the bytes of every OASIS file.
ghost use Rattle.std.specs.Prelude.{◌≤◌, ℕ, Bool, length};
ghost use Rattle.layout_laws.specs.FileLaws.{HasRecordOrNone, OthersHaveFault};

use oas_record::record_at;

// Whether a record stands at this place.
fn look(bytes: &[u8], at: usize, tables: bool)
    requires { at ≤ length bytes.now }
    ensures { HasRecordOrNone bytes.now at tables }
{
    let _found = record_at(bytes, at, tables);
}

// Whether a record stands there, whether END holds the table offsets or not.
fn look_twice(bytes: &[u8], at: usize)
    requires { at ≤ length bytes.now }
    ensures { (tables : Bool) → HasRecordOrNone bytes.now at tables }
{
    look(bytes, at, false);
    look(bytes, at, true);
}

// Whether a record stands at each place.
fn look_everywhere(bytes: &[u8])
    ensures { (at : ℕ) → at ≤ length bytes.now
        → (tables : Bool) → HasRecordOrNone bytes.now at tables }
{
    for at in 0..bytes.len() {
        look_twice(bytes, at);
    }
    look_twice(bytes, bytes.len());
}

/// Bytes that aren't an OASIS layout have a first fault: no bytes are neither, for any unit and any wanted
/// pairs. There is no use in a call, which looks at each place: the contract says what holds of all bytes.
pub fn oasis_law(bytes: &[u8])
    ensures { OthersHaveFault bytes.now }
{
    look_everywhere(bytes);
}
