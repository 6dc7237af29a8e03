//! What holds of stripe lists.
ghost use Rattle.field_split.specs.Laws.{SomeStripeList, OneStripeList, PiecesAreShots, PiecesFit, PiecesAreFew, PiecesInFields, SameTilesInStripe, SameTiles};

/// What holds of the stripe lists of every list of shots: there is one for each stripe, and only one; its pieces are
/// legal, within reach and within the limits of the shots, they aren't too many, and each lies in one field; each tile of the stripe is in as
/// many of them as of the shots, and so each tile in as many pieces of all stripes. It costs nothing.
pub fn field_laws()
    ensures some { SomeStripeList }
    ensures one { OneStripeList }
    ensures shots { PiecesAreShots }
    ensures fit { PiecesFit }
    ensures few { PiecesAreFew }
    ensures in_fields { PiecesInFields }
    ensures stripe_tiles { SameTilesInStripe }
    ensures tiles { SameTiles }
{}
