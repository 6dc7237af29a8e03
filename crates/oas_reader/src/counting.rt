//! The counts of a file.
ghost use Rattle.std.specs.Prelude.{◌≡◌, ◌^◌, Some as Just};
ghost use Rattle.layout_model.specs.Counting.{AreAtMost};
ghost use Rattle.oas_reader.specs.Drawn.{with_record};
ghost use Rattle.oas_reader.specs.declared.bodies.Body.TheVariants as bodies;

use crate::bodies::Body;
use layout_model::Counts;

/// The counts with one more record. `wanted` says of a record with a pair whether it is wanted.
#[inline(always)]
pub(crate) fn with(counts: Counts, body: Body, wanted: Option<bool>) -> Counts
    requires { AreAtMost (2 ^ 63) counts }
    ensures { result ≡ with_record wanted body counts }
{
    match wanted {
        Some(true) => {
            return Counts {
                kept: counts.kept + 1,
                ..counts
            };
        }
        Some(false) => {
            return Counts {
                other: counts.other + 1,
                ..counts
            };
        }
        None => {}
    }
    match body {
        Body::Text => Counts {
            texts: counts.texts + 1,
            ..counts
        },
        Body::Property => Counts {
            properties: counts.properties + 1,
            ..counts
        },
        _ => counts,
    }
}

/// Counts one more record with a pair.
#[inline(always)]
pub(crate) fn count_shape(counts: &mut Counts, is_wanted: bool)
    requires { AreAtMost (2 ^ 63) counts.old }
    ensures { counts.new ≡ with_record (Just is_wanted) bodies.Rectangle counts.old }
{
    if is_wanted {
        counts.kept += 1;
    } else {
        counts.other += 1;
    }
}
