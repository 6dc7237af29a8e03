//! The whole file.
ghost use Rattle.std.specs.Prelude.{◌≡◌, ◌≢◌, ◌⊎◌, ◌∷◌, [], ◌++◌, ◌<◌, ◌≤◌, ℕ, List as Items, Option, length, drop, slice_index, IsTrue, ◌↔◌, OnOk, IfOk, IfErr};
ghost use Rattle.geo_stream.specs.Refusals.{IfFault};
ghost use Rattle.geo_stream.specs.declared.refusal.Refusal.TheVariants.{Fault, NoMemory};
ghost use Rattle.half_grid.specs.Trapezoids.{Trapezoid};
ghost use Rattle.layout_model.specs.declared.pair.Pair.{Pair as APair};
ghost use Rattle.shot_repeat.specs.Asking.{AskForFew};
ghost use Rattle.shot_repeat.specs.Packed.{IsPackedFile, most_of_file};
ghost use Rattle.shot_repeat.specs.Progress.{IsStart, HasRead};
ghost use Rattle.shot_repeat.specs.Refusals.{IsPackRecordFault, IsFirstPackFault};
ghost use Rattle.shot_repeat.specs.declared.record.PackRecord.{PackRecord as Written};
ghost use Rattle.shot_repeat.specs.declared.refusing.PackBad.{PackBad as Bad};

use crate::giving::put_shots;
use crate::looking::check_number;
use crate::modal::{count_of, nothing_written, step_of};
use crate::reading::{END, Progress, ends_right, next_record};
use crate::refusing::PackBad;
use geo_stream::{List, Refusal};
use half_grid::Trap;
use shot_reader::{ShotFile, head_of, longest_head};
use std::alloc::Global;

// Reads the next record, and puts its shots last.
fn read_one(
    bytes: &[u8],
    progress: &Progress,
    shots: &mut List<Trap>,
) -> Result<Progress, Refusal<PackBad>>
    requires here { progress.now.at < length bytes.now }
    requires no_end { slice_index bytes.now progress.now.at ≢ 2 }
    requires few { length shots.old ≤ most_of_file }
    ensures next { IfOk result (λ p. progress.now.at < p.at) }
    ensures ok { (unit : ℕ) (records : Items Written) → HasRead bytes.now unit records progress.now shots.old
        → IfOk result (λ p. (r : Written) × HasRead bytes.now unit (records ++ r ∷ []) p shots.new) }
    ensures refused { (unit : ℕ) (records : Items Written) → HasRead bytes.now unit records progress.now shots.old
        → IfFault result (IsPackRecordFault records (drop progress.now.at bytes.now) progress.now.at) }
{
    let next = match next_record(bytes, progress, shots.as_slice().len()) {
        Ok(next) => next,
        Err(bad) => return Err(Refusal::Fault(bad)),
    };
    let step = step_of(&next.record.repetition);
    let count = count_of(&next.record.repetition);
    put_shots(shots, &next.fields, step, count, progress.at)?;
    Ok(next.progress)
}

// Reads the records, which ask for few enough shots, and takes memory for these.
fn take_file(
    alloc: Global,
    bytes: &[u8],
    unit: u32,
    start: &Progress,
) -> Result<ShotFile, Refusal<PackBad>>
    requires start { IsStart bytes.now unit start.now }
    requires few { AskForFew (drop start.now.at bytes.now) }
    ensures unit { IfOk result (λ file. file.unit ≡ unit) }
    ensures found { IfOk result (λ file. IsPackedFile bytes.now file.unit file.pair file.shots) }
    ensures refused { IfFault result (IsFirstPackFault bytes.now) }
{
    let mut progress = *start;
    let mut shots = List::new(alloc);
    while progress.at < bytes.len() && bytes[progress.at] != END {
        progress = read_one(bytes, &progress, &mut shots)?;
    }
    if let Err(bad) = ends_right(bytes, progress.at) {
        return Err(Refusal::Fault(bad));
    }
    Ok(ShotFile {
        unit,
        pair: progress.first,
        shots,
    })
}

/// The unit, the pair and the shots for which the bytes of a packed shot file stand. Other bytes are refused, by the
/// first fault, whatever comes after it; so are more than 16,777,216 shots of one record and more than 33,554,432 in
/// all, before memory is taken for them. NoMemory may come in place of any answer where memory runs out.
pub fn read_packed(alloc: Global, bytes: &[u8]) -> Result<ShotFile, Refusal<PackBad>>
    ensures found { IfOk result (λ file. IsPackedFile bytes.now file.unit file.pair file.shots) }
    ensures read { (unit : ℕ) (pair : Option APair) (shots : Items Trapezoid) → IsPackedFile bytes.now unit pair shots
        → IfOk result (λ file. (file.unit ≡ unit) × (file.pair ≡ pair) × (file.shots ≡ shots)) }
    ensures refused { (unit : ℕ) (pair : Option APair) (shots : Items Trapezoid) → IsPackedFile bytes.now unit pair shots
        → IfErr result (λ refusal. refusal ≡ NoMemory) }
    ensures first_fault { IfFault result (IsFirstPackFault bytes.now) }
    ensures every_fault { (bad : Bad) → IsFirstPackFault bytes.now bad → (result ≡ Err (Fault bad)) ⊎ (result ≡ Err NoMemory) }
{
    let Some((unit, first)) = head_of(bytes) else {
        return Err(Refusal::Fault(PackBad::Head(longest_head(bytes))));
    };
    let start = Progress {
        at: first,
        first: None,
        modal: nothing_written(),
    };
    if let Err(bad) = check_number(bytes, &start) {
        return Err(Refusal::Fault(bad));
    }
    take_file(alloc, bytes, unit, &start)
}
