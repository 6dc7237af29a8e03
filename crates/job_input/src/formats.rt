//! The format of a layout file.
ghost use Rattle.job_input.specs.Accepted.{IsFormatOf};

/// The format of a layout file.
#[derive(Clone, Copy, Debug, PartialEq, Eq)]
pub enum Format {
    /// GDSII stream format.
    Gdsii,
    /// SEMI P39 OASIS.
    Oasis,
}

/// The format of these bytes, by the first of them: that of an OASIS file is 25 hex, and all others are GDSII.
pub(crate) fn format_of(bytes: &[u8]) -> Format
    ensures { IsFormatOf bytes.now result }
{
    match bytes.first() {
        Some(0x25) => Format::Oasis,
        _ => Format::Gdsii,
    }
}
