//! What holds of all mirror images.
ghost use Rattle.tone_mirror.specs.MirrorLaws.{MirroredTwice, ImageHasTile, ImagesHaveCount, ImageIsLegal};

/// The mirror images of tiles and trapezoids: it holds of all of them, and costs nothing.
pub fn mirror_laws()
    ensures mirrored_twice { MirroredTwice }
    ensures image_has_tile { ImageHasTile }
    ensures images_have_count { ImagesHaveCount }
    ensures image_is_legal { ImageIsLegal }
{}
