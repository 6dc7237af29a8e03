//! The ends of a path.
ghost use Rattle.std.specs.Prelude.{◌≡◌};
ghost use Rattle.oas_fields.specs.Writes.{extension_by, start_by, end_by};

/// How far a path goes beyond its first or its last point, as a record writes it.
#[derive(Clone, Copy, Debug, PartialEq, Eq)]
pub(crate) enum Extension {
    /// Not at all.
    Flush,
    /// By the half width of the record.
    HalfWidth,
    /// By this many grid steps; less far where they are below 0.
    Length(i64),
}

// What two bits of an extension byte write, where this length is written for 3: 0 writes nothing, 1 flush, 2 the half
// width.
fn extension_by(scheme: u8, length: Option<i64>) -> Option<Extension>
    ensures { result ≡ extension_by scheme length }
{
    match scheme {
        1 => Some(Extension::Flush),
        2 => Some(Extension::HalfWidth),
        3 => match length {
            Some(length) => Some(Extension::Length(length)),
            None => None,
        },
        _ => None,
    }
}

/// What the extension byte of a record writes of the start, where this length is written.
pub(crate) fn start_by(extension: Option<u8>, length: Option<i64>) -> Option<Extension>
    ensures { result ≡ start_by extension length }
{
    match extension {
        Some(byte) => extension_by(byte / 4 % 4, length),
        None => None,
    }
}

/// What it writes of the end.
pub(crate) fn end_by(extension: Option<u8>, length: Option<i64>) -> Option<Extension>
    ensures { result ≡ end_by extension length }
{
    match extension {
        Some(byte) => extension_by(byte % 4, length),
        None => None,
    }
}
