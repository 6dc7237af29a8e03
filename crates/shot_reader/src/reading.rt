//! The whole file.
ghost use Rattle.std.specs.Prelude.{◌≡◌, ◌≢◌, ◌⊎◌, ◌++◌, ◌<◌, ◌≤◌, ℕ, List as Items, length, drop, slice_index, All, IsTrue, ◌↔◌, IfOk, IfErr};
ghost use Rattle.geo_stream.specs.Refusals.{IfFault};
ghost use Rattle.geo_stream.specs.declared.refusal.Refusal.TheVariants.{Fault, NoMemory};
ghost use Rattle.half_grid.specs.Trapezoids.{Trapezoid, IsShot};
ghost use Rattle.oas_lex.specs.ShotText.{IsUnit, spelling_of, shot_text, end};
ghost use Rattle.oas_lex.specs.ShotLaws.{IsNarrowPair};
ghost use Rattle.shot_reader.specs.Reading.{AgreesWithPair, IsFileOf};
ghost use Rattle.shot_reader.specs.Refusals.{IsShotRecordFault, IsFirstShotFault};
ghost use Rattle.shot_reader.specs.declared.refusing.ShotBad.{ShotBad};

use crate::corners::trap_of;
use crate::fields::fields_at;
use crate::head::{head_of, longest_head};
use crate::refusing::{ShotBad, record_refusal};
use geo_stream::{List, Refusal};
use half_grid::Trap;
use layout_model::Pair;
use oas_lex::end_text;
use std::alloc::Global;

/// The first byte of END.
const END: u8 = 2;

/// What a shot file says.
#[derive(Drop)]
pub struct ShotFile {
    /// How many half units a micron has: twice the number of grid steps in a micron.
    pub unit: u32,
    /// The layer and the datatype of each record. None exactly where there are no shots.
    pub pair: Option<Pair>,
    /// The shots in order.
    pub shots: List<Trap>,
}

/// One record: its pair, its shot, and the offset after it.
#[derive(Clone, Copy)]
struct Record {
    pair: Pair,
    shot: Trap,
    next: usize,
}

// Whether a record with the pair may stand after those with the first.
fn agrees(first: Option<Pair>, pair: Pair) -> bool
    ensures { IsTrue result ↔ AgreesWithPair first pair.layer pair.datatype }
{
    match first {
        None => true,
        Some(own) => own.layer == pair.layer && own.datatype == pair.datatype,
    }
}

// The record at `at`, after records with the first pair.
fn read_record(bytes: &[u8], at: usize, first: Option<Pair>) -> Result<Record, ShotBad>
    requires here { at < length bytes.now }
    requires no_end { slice_index bytes.now at ≢ 2 }
    ensures pair { IfOk result (λ r. IsNarrowPair r.pair.layer r.pair.datatype × AgreesWithPair first r.pair.layer r.pair.datatype) }
    ensures next { IfOk result (λ r. (at < r.next) × (r.next ≤ length bytes.now)) }
    ensures shot { IfOk result (λ r. IsShot r.shot) }
    ensures found { IfOk result (λ r. drop at bytes.now ≡ spelling_of r.pair.layer r.pair.datatype r.shot ++ drop r.next bytes.now) }
    ensures refused { IfErr result (λ bad. IsShotRecordFault first (drop at bytes.now) at bad) }
{
    let (fields, next) = fields_at(bytes, at);
    if bytes.len() < next {
        return Err(record_refusal(bytes, at));
    }
    let pair = Pair {
        layer: fields.layer,
        datatype: fields.datatype,
    };
    if !agrees(first, pair) {
        return Err(ShotBad::Spelling(at));
    }
    match trap_of(&fields) {
        Some(shot) => Ok(Record { pair, shot, next }),
        None => Err(ShotBad::Illegal(at)),
    }
}

/// Whether END, and nothing else, is at `at`.
pub fn ends_at(bytes: &[u8], at: usize) -> bool
    requires { at ≤ length bytes.now }
    ensures { IsTrue result ↔ (drop at bytes.now ≡ end) }
{
    let text = end_text();
    &bytes[at..] == text.as_slice()
}

/// The unit, the pair and the shots of which the bytes are the text. Bytes that are no such text are refused, by the
/// first fault, whatever comes after it. NoMemory may come in place of any answer where memory runs out.
pub fn read_shots(alloc: Global, bytes: &[u8]) -> Result<ShotFile, Refusal<ShotBad>>
    ensures found { IfOk result (λ file. IsFileOf bytes.now file.unit file.pair file.shots) }
    ensures read { (unit l d : ℕ) (shots : Items Trapezoid) → IsUnit unit → IsNarrowPair l d → All IsShot shots
        → bytes.now ≡ shot_text unit l d shots
        → IfOk result (λ file. (file.unit ≡ unit) × (file.shots ≡ shots) × AgreesWithPair file.pair l d) }
    ensures refused { (unit l d : ℕ) (shots : Items Trapezoid) → IsUnit unit → IsNarrowPair l d → All IsShot shots
        → bytes.now ≡ shot_text unit l d shots
        → IfErr result (λ refusal. refusal ≡ NoMemory) }
    ensures first_fault { IfFault result (IsFirstShotFault bytes.now) }
    ensures every_fault { (bad : ShotBad) → IsFirstShotFault bytes.now bad → (result ≡ Err (Fault bad)) ⊎ (result ≡ Err NoMemory) }
{
    let Some((unit, first)) = head_of(bytes) else {
        return Err(Refusal::Fault(ShotBad::Head(longest_head(bytes))));
    };
    let mut at = first;
    let mut pair = None;
    let mut shots = List::new(alloc);
    while at < bytes.len() && bytes[at] != END {
        let record = match read_record(bytes, at, pair) {
            Ok(record) => record,
            Err(bad) => return Err(Refusal::Fault(bad)),
        };
        shots.push(record.shot)?;
        pair = Some(record.pair);
        at = record.next;
    }
    if at == bytes.len() {
        return Err(Refusal::Fault(ShotBad::Record(at)));
    }
    if !ends_at(bytes, at) {
        return Err(Refusal::Fault(ShotBad::End(at)));
    }
    Ok(ShotFile { unit, pair, shots })
}
