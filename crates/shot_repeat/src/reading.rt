//! The next record of a file, and the file's end.
ghost use Rattle.std.specs.Prelude.{◌≡◌, ◌≢◌, ◌⊎◌, ◌∷◌, [], ◌++◌, ◌<◌, ◌≤◌, ℕ, List as Items, Option, length, drop, slice_index, IsTrue, ◌↔◌, OnOk, IfOk, IfErr};
ghost use Rattle.oas_lex.specs.ShotText.{end};
ghost use Rattle.shot_repeat.specs.Modal.{updated};
ghost use Rattle.shot_repeat.specs.Packed.{most_of_file};
ghost use Rattle.shot_repeat.specs.Progress.{IsUnspelled, AreKept, IsJudged, IsNext, first_of};
ghost use Rattle.shot_repeat.specs.Records.{IsNarrow, record_text};
ghost use Rattle.shot_repeat.specs.Refusals.{IsPackValueFault, IsPackRecordFault};
ghost use Rattle.shot_repeat.specs.declared.record.PackRecord.{PackRecord as Written};

use crate::fields::record_at;
use crate::modal::{Modal, agrees, count_of, fields_shown, updated};
use crate::record::PackRecord;
use crate::refusing::{PackBad, record_refusal};
use layout_model::Pair;
use oas_lex::ShotFields;
use shot_reader::ends_at;

/// The first byte of END.
pub(crate) const END: u8 = 2;
/// How many shots one record may give.
pub(crate) const MOST_OF_RECORD: u64 = 16_777_216;
/// How many shots a file may give.
pub(crate) const MOST_OF_FILE: u64 = 33_554_432;

/// One record, and the offset after it.
#[derive(Clone, Copy)]
struct Spelled {
    record: PackRecord,
    next: usize,
}

/// How far the reading has come: the offset of the next record, the pair of the first one, and the last values.
#[derive(Clone, Copy)]
pub(crate) struct Progress {
    pub(crate) at: usize,
    pub(crate) first: Option<Pair>,
    pub(crate) modal: Modal,
}

// The record that is spelled at `at`.
fn spelled_at(bytes: &[u8], at: usize) -> Result<Spelled, PackBad>
    requires here { at < length bytes.now }
    ensures narrow { IfOk result (λ s. IsNarrow s.record) }
    ensures next { IfOk result (λ s. (at < s.next) × (s.next ≤ length bytes.now)) }
    ensures found { IfOk result (λ s. drop at bytes.now ≡ record_text s.record ++ drop s.next bytes.now) }
    ensures refused { IfErr result (λ bad. IsUnspelled (drop at bytes.now) at bad) }
{
    let (record, next) = record_at(bytes, at);
    if bytes.len() < next {
        return Err(record_refusal(bytes, at));
    }
    Ok(Spelled { record, next })
}

// The fields of the first shot of a record, by the last values after it, where nothing is wrong with its values and the
// number of its shots.
fn judged(
    progress: &Progress,
    modal: &Modal,
    written: &PackRecord,
    so_far: usize,
) -> Result<ShotFields, PackBad>
    requires narrow { IsNarrow written.now }
    requires few { so_far ≤ most_of_file }
    requires last { modal.now ≡ updated progress.now.modal written.now }
    ensures ok { (before : Items Written) → AreKept before progress.now so_far
        → IfOk result (λ f. IsJudged before written.now f) }
    ensures refused { (before : Items Written) → AreKept before progress.now so_far
        → IfErr result (λ bad. IsPackValueFault before written.now progress.now.at bad) }
{
    let Some(fields) = fields_shown(modal, written) else {
        return Err(PackBad::Undefined(progress.at));
    };
    if !agrees(progress.first, fields.layer, fields.datatype) {
        return Err(PackBad::Pair(progress.at));
    }
    let count = count_of(&written.repetition);
    if MOST_OF_RECORD < count {
        return Err(PackBad::Many(progress.at));
    }
    if MOST_OF_FILE < so_far as u64 + count {
        return Err(PackBad::Many(progress.at));
    }
    Ok(fields)
}

// The pair of the first record, where the first shot of the next one has these fields.
fn first_of(first: Option<Pair>, fields: &ShotFields) -> Pair
    ensures { result ≡ first_of first fields.now }
{
    match first {
        Some(own) => own,
        None => Pair {
            layer: fields.layer,
            datatype: fields.datatype,
        },
    }
}

/// A record, the fields of its first shot, and how far the reading has come after it.
#[derive(Clone, Copy)]
pub(crate) struct Next {
    pub(crate) record: PackRecord,
    pub(crate) fields: ShotFields,
    pub(crate) progress: Progress,
}

/// The next record, where nothing is wrong with it but perhaps a shot that it gives.
pub(crate) fn next_record(bytes: &[u8], progress: &Progress, so_far: usize) -> Result<Next, PackBad>
    requires here { progress.now.at < length bytes.now }
    requires no_end { slice_index bytes.now progress.now.at ≢ 2 }
    requires few { so_far ≤ most_of_file }
    ensures ok { IfOk result (IsNext bytes.now progress.now so_far) }
    ensures refused { (records : Items Written) → AreKept records progress.now so_far
        → IfErr result (λ bad. IsPackRecordFault records (drop progress.now.at bytes.now) progress.now.at bad) }
{
    let spelled = spelled_at(bytes, progress.at)?;
    let record = spelled.record;
    let modal = updated(&progress.modal, &record);
    let fields = judged(progress, &modal, &record, so_far)?;
    Ok(Next {
        record,
        fields,
        progress: Progress {
            at: spelled.next,
            first: Some(first_of(progress.first, &fields)),
            modal,
        },
    })
}

/// Whether the file ends as it should where its last record does.
pub(crate) fn ends_right(bytes: &[u8], at: usize) -> Result<(), PackBad>
    requires within { at ≤ length bytes.now }
    requires stops { at < length bytes.now → slice_index bytes.now at ≡ 2 }
    ensures ok { OnOk result (drop at bytes.now ≡ end) }
    ensures refused { (records : Items Written) → IfErr result (λ bad. IsPackRecordFault records (drop at bytes.now) at bad) }
{
    if at == bytes.len() {
        return Err(PackBad::Record(at));
    }
    if !ends_at(bytes, at) {
        return Err(PackBad::End(at));
    }
    Ok(())
}
