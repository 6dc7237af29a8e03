//! What holds of the shot lists of outputs.
ghost use Rattle.shot_output.specs.Laws.{ShotsAreLegal, ShotsFit, ShotsCover, ShotsAreFew, TrianglesAreTiles, OneShotList, SameLayersSameFiles, BandsCoverTheSame};

/// What holds of the shot list of each output: its shots are legal and within the limits; each tile of the plane is in
/// exactly one of them where it is in the output's area, and in none otherwise; no cut is needless, for every height of
/// bands; its triangles are as many as the tiles of the area; and an area has one shot list at most. With one deck, equal
/// layer areas give the same texts, and decks that differ in their rows per band alone cover the same triangles. It costs
/// nothing.
pub fn list_laws()
    ensures legal { ShotsAreLegal }
    ensures fit { ShotsFit }
    ensures cover { ShotsCover }
    ensures few { ShotsAreFew }
    ensures triangles { TrianglesAreTiles }
    ensures one { OneShotList }
    ensures layers { SameLayersSameFiles }
    ensures bands { BandsCoverTheSame }
{}
