//! Laws of the definitions.
ghost use Rattle.oas_reader.specs.Reading.{OneLayout, OneFault, NoLayoutWithFault};

use oas_record::record_laws;

/// Bytes hold at most one layout and at most one first fault, and never both. It rests on the laws of records, and does
/// nothing.
pub fn reading_laws()
    ensures layout { OneLayout }
    ensures fault { OneFault }
    ensures apart { NoLayoutWithFault }
{
    record_laws();
}
