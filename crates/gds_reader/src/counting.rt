//! The counts of a file.
ghost use Rattle.std.specs.Prelude.{◌≡◌, ◌^◌, ℕ, List, ◌∷◌};
ghost use Rattle.layout_model.specs.Counting.{AreAtMost};
ghost use Rattle.layout_model.specs.declared.pair.Pair.{Pair as APair};
ghost use Rattle.gds_record.specs.declared.records.Record.{Record as ARecord};
ghost use Rattle.gds_reader.specs.Meaning.{counts_of, wanted_at};

use gds_record::{Kind, Record};
use layout_model::Counts;

/// Counts one more record. `drawn` says of the XY of a boundary or a path whether it is on a wanted pair.
#[inline(always)]
pub(crate) fn count(counts: &mut Counts, current: Record, drawn: Option<bool>)
    requires { AreAtMost (2 ^ 63) counts.old }
    ensures { (bytes : List ℕ) (past : List ARecord) (wanted : List APair) → counts.old ≡ counts_of bytes wanted past
        → drawn ≡ wanted_at bytes wanted past current → counts.new ≡ counts_of bytes wanted (current ∷ past) }
{
    match current.kind {
        Kind::Xy => match drawn {
            Some(true) => counts.kept += 1,
            Some(false) => counts.other += 1,
            None => {}
        },
        Kind::Text => counts.texts += 1,
        Kind::Node => counts.nodes += 1,
        Kind::Box => counts.boxes += 1,
        Kind::PropAttr => counts.properties += 1,
        _ => {}
    }
}
