//! The names of a record.
ghost use Rattle.std.specs.Prelude.{◌≡◌, ◌<◌, ◌^◌, true, false, List, ◌∷◌, None as Nothing, OnOk};
ghost use Rattle.geo_stream.specs.Refusals.{IfFault};
ghost use Rattle.layout_model.specs.declared.pair.Pair.{Pair as APair};
ghost use Rattle.oas_record.specs.declared.records.OasRecord.{OasRecord as ARecord};
ghost use Rattle.oas_fields.specs.Values.{begins_cell};
ghost use Rattle.oas_reader.specs.Bodies.{body_of};
ghost use Rattle.oas_reader.specs.Items.{Item};
ghost use Rattle.oas_reader.specs.Names.{conflict_of};
ghost use Rattle.oas_reader.specs.Naming.{IsSpan, IsCalledWithin, cell_name_record, cell_record, HaveSpans, AreNamesOf};
ghost use Rattle.oas_reader.specs.Reading.{item};
ghost use Rattle.oas_reader.specs.Readers.{AreDraftsOf, AreDraftsWithin};
ghost use Rattle.oas_reader.specs.Taking.{IsBodyWithin, KeepsOwnName, IsBadName};

use crate::bodies::Body;
use crate::cells::Drafts;
use crate::naming::{Names, look_at_called, look_at_name};
use crate::refusing::OasBad;
use geo_stream::Refusal;
use oas_record::Called;
use std::alloc::Global;

// Takes a CELLNAME record at this offset.
fn take_cell_name<'a>(
    alloc: Global,
    bytes: &'a [u8],
    names: &mut Names<'a>,
    name: (usize, usize),
    number: Option<u64>,
    at: usize,
) -> Result<(), Refusal<OasBad>>
    requires span { IsSpan bytes.now name }
    requires counted { names.old.counted < 2 ^ 63 }
    ensures own { OnOk result (KeepsOwnName bytes.now (cell_name_record name number)) }
    ensures new { (past : List Item) → AreNamesOf bytes.now past names.old
        → OnOk result (conflict_of bytes.now past (cell_name_record name number) ≡ Nothing) }
    ensures names { (past : List Item) → AreNamesOf bytes.now past names.old
        → OnOk result (AreNamesOf bytes.now (item at (cell_name_record name number) ∷ past) names.new) }
    ensures spans { HaveSpans bytes.now names.old → OnOk result (HaveSpans bytes.now names.new) }
    ensures bad { (past : List Item) → AreNamesOf bytes.now past names.old
        → IfFault result (IsBadName bytes.now past at (cell_name_record name number)) }
{
    look_at_name(alloc, bytes, name.0, name.1, at)?;
    names.give(name, number, at)
}

// Takes a CELL record at this offset, and begins its cell.
fn take_cell<'a>(
    alloc: Global,
    bytes: &'a [u8],
    names: &mut Names<'a>,
    drafts: &mut Drafts,
    called: Called,
    at: usize,
) -> Result<(), Refusal<OasBad>>
    requires called { IsCalledWithin bytes.now called }
    ensures own { OnOk result (KeepsOwnName bytes.now (cell_record called)) }
    ensures new { (past : List Item) → AreNamesOf bytes.now past names.old
        → OnOk result (conflict_of bytes.now past (cell_record called) ≡ Nothing) }
    ensures names { (past : List Item) → AreNamesOf bytes.now past names.old
        → OnOk result (AreNamesOf bytes.now (item at (cell_record called) ∷ past) names.new) }
    ensures spans { HaveSpans bytes.now names.old → OnOk result (HaveSpans bytes.now names.new) }
    ensures cell { (wanted : List APair) (past : List Item) → AreDraftsOf wanted past drafts.old
        → OnOk result (AreDraftsOf wanted (item at (cell_record called) ∷ past) drafts.new) }
    ensures within { AreDraftsWithin bytes.now drafts.old → OnOk result (AreDraftsWithin bytes.now drafts.new) }
    ensures bad { (past : List Item) → AreNamesOf bytes.now past names.old
        → IfFault result (IsBadName bytes.now past at (cell_record called)) }
{
    look_at_called(alloc, bytes, Some(called), at)?;
    names.begin(bytes, called, at)?;
    drafts.begin(alloc, called, at)?;
    Ok(())
}

/// Takes what the record at this offset names, looks at its own name, and begins the cell of a CELL record.
#[inline(always)]
pub(crate) fn take_names<'a>(
    alloc: Global,
    bytes: &'a [u8],
    names: &mut Names<'a>,
    drafts: &mut Drafts,
    body: Body,
    at: usize,
) -> Result<(), Refusal<OasBad>>
    requires body { IsBodyWithin bytes.now body }
    requires counted { names.old.counted < 2 ^ 63 }
    ensures own { (r : ARecord) → body ≡ body_of r → OnOk result (KeepsOwnName bytes.now r) }
    ensures new { (past : List Item) (r : ARecord) → body ≡ body_of r → AreNamesOf bytes.now past names.old
        → OnOk result (conflict_of bytes.now past r ≡ Nothing) }
    ensures names { (past : List Item) (r : ARecord) → body ≡ body_of r → AreNamesOf bytes.now past names.old
        → OnOk result (AreNamesOf bytes.now (item at r ∷ past) names.new) }
    ensures spans { HaveSpans bytes.now names.old → OnOk result (HaveSpans bytes.now names.new) }
    ensures cell { (wanted : List APair) (past : List Item) (r : ARecord) → body ≡ body_of r → begins_cell r ≡ true
        → AreDraftsOf wanted past drafts.old → OnOk result (AreDraftsOf wanted (item at r ∷ past) drafts.new) }
    ensures drafts { (r : ARecord) → body ≡ body_of r → begins_cell r ≡ false → OnOk result (drafts.new ≡ drafts.old) }
    ensures within { AreDraftsWithin bytes.now drafts.old → OnOk result (AreDraftsWithin bytes.now drafts.new) }
    ensures bad { (past : List Item) (r : ARecord) → body ≡ body_of r → AreNamesOf bytes.now past names.old
        → IfFault result (IsBadName bytes.now past at r) }
{
    match body {
        Body::CellName { name, number } => take_cell_name(alloc, bytes, names, name, number, at),
        Body::Cell(called) => take_cell(alloc, bytes, names, drafts, called, at),
        Body::Placement { called, .. } => {
            names.place(called, at)?;
            Ok(())
        }
        _ => Ok(()),
    }
}
