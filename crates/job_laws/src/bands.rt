//! What holds of two runs with other band heights.
ghost use Rattle.job_laws.specs.BandLaws.{BandsKeepAreas};

use oas_reader::reading_laws;

/// Where `fracture` was done twice, with the same layout and with decks that differ in the height of their
/// bands alone, the files of each output denote one area: each triangle is in as many shots of the one file
/// as of the other. It costs nothing.
pub fn band_law()
    ensures { BandsKeepAreas }
{
    reading_laws();
}
