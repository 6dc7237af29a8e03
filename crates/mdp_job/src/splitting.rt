//! The command `split`: a shot file, cut along the lines of fields into one file a stripe.

ghost use Rattle.std.specs.Prelude.{◌≡◌, ◌⊎◌, ◌≤◌, pos, ◌+ℤ◌, ◌-ℤ◌, ◌<ℤ◌, All, IsTrue, IfOk, IfErr, length};
ghost use Rattle.depot.specs.Counts.{NeverFall, Rose};
ghost use Rattle.field_split.specs.Fields.{IsFieldSize};
ghost use Rattle.field_split.specs.Looks.{IsFieldShot, AreStripesOf};
ghost use Rattle.mdp_job.specs.Runs.{run_of};
ghost use Rattle.mdp_job.specs.Splitting.{head_of};
ghost use Rattle.mdp_job.specs.FieldAnswers.{IsSpan, IsSpanFault, IsSplitSo, IsSplitFile};
ghost use Rattle.mdp_job.specs.FileAnswers.{IsFileAnswer, IsPlainData, shot_data};
ghost use Rattle.mdp_job.specs.Table.{splitting_command};
ghost use Rattle.mdp_job.specs.Parts.{IsOfFile, IsOfWriting, refuses_fields, CountsFor};

use crate::ending::fault_status;
use crate::files::read_shot_file;
use crate::packing::pair_or;
use crate::stripe_lines::say_stripes;
use depot::Depot;
use field_output::write_stripes;
use field_split::{Fields, stripes, too_wide};
use half_grid::Trap;
use job_report::{CheckFault, Status};
use shot_reader::ShotFile;
use shot_writer::{Head, Sums};
use std::alloc::Global;

/// The greatest number of stripes that are written.
const MOST_STRIPES: i128 = 4096;

// The fields of a size from 16 to 16,777,216.
fn fields_of(size: u32) -> Fields
    requires { 16 ≤ size × size ≤ 16777216 }
    ensures { result ≡ pos size }
{
    match Fields::new(i64::from(size)) {
        Some(fields) => fields,
        None => unreachable!(),
    }
}

// How many stripes there are from the one to the other.
fn number_of_stripes(first: i64, last: i64) -> i128
    ensures { result ≡ (last -ℤ first) +ℤ pos 1 }
{
    i128::from(last) - i128::from(first) + 1
}

// The least and the greatest stripe that a shot meets, none where there are no shots; or why the shots can't be split.
fn span_of(shots: &[Trap], fields: &Fields) -> Result<Option<(i64, i64)>, CheckFault>
    ensures within { IfOk result (λ span. All IsFieldShot shots.now) }
    ensures span { IfOk result (IsSpan fields.now shots.now) }
    ensures refused { IfErr result (IsSpanFault fields.now shots.now) }
{
    if let Some(shot) = too_wide(shots) {
        return Err(CheckFault::Wide(shot));
    }
    let Some((first, last)) = stripes(shots, fields) else {
        return Ok(None);
    };
    let number = number_of_stripes(first, last);
    if MOST_STRIPES < number {
        return Err(CheckFault::Stripes(number as u128));
    }
    Ok(Some((first, last)))
}

// What each stripe's file begins with.
fn head_of(file: &ShotFile) -> Head
    ensures { result ≡ head_of (shot_data file.now) }
{
    Head {
        unit: file.unit,
        pair: pair_or(file.pair),
    }
}

// Makes the files of the stripes of shots, and says how much they are.
fn split_shots<D: Depot>(
    alloc: Global,
    file: &ShotFile,
    fields: &Fields,
    span: (i64, i64),
    out: &str,
    depot: &mut D,
) -> Status
    requires plain { IsPlainData (shot_data file.now) }
    requires size { IsFieldSize fields.now }
    requires within { All IsFieldShot (shot_data file.now).shots }
    requires stripes { AreStripesOf fields.now (shot_data file.now).shots span.0 span.1 }
    requires few { (span.1 -ℤ span.0) <ℤ pos 4096 }
    ensures made { IsTrue D.tells → IsSplitSo (D.content depot.old) (D.content depot.new)
        (Rose (D.counts depot.old).write_faults (D.counts depot.new).write_faults)
        (Rose (D.counts depot.old).refused (D.counts depot.new).refused)
        fields.now out.now (shot_data file.now) result }
    ensures write_fault { result ≡ Status.WriteFault
        → Rose (D.counts depot.old).write_faults (D.counts depot.new).write_faults }
    ensures kind { IsOfWriting result }
    ensures counts { CountsFor (D.counts depot.old) (D.counts depot.new) result }
    ensures counted { NeverFall (D.counts depot.old) (D.counts depot.new) }
{
    match write_stripes(
        alloc,
        depot,
        out,
        head_of(file),
        file.shots.as_slice(),
        fields,
        span,
    ) {
        Ok(written) => say_stripes(&written.each, &written.all, depot),
        Err(bad) => fault_status(bad),
    }
}

// What is written of no shots.
fn no_sums() -> Sums
    ensures shots { result.shots ≡ 0 }
    ensures triangles { result.triangles ≡ 0 }
{
    Sums {
        shots: 0,
        triangles: 0,
    }
}

// Makes the files of all stripes of this span, and says how much they are; where there are no shots there is none.
fn split_span<D: Depot>(
    alloc: Global,
    file: &ShotFile,
    fields: &Fields,
    span: Option<(i64, i64)>,
    out: &str,
    depot: &mut D,
) -> Status
    requires plain { IsPlainData (shot_data file.now) }
    requires size { IsFieldSize fields.now }
    requires within { All IsFieldShot (shot_data file.now).shots }
    requires span { IsSpan fields.now (shot_data file.now).shots span }
    ensures made { IsTrue D.tells → IsSplitSo (D.content depot.old) (D.content depot.new)
        (Rose (D.counts depot.old).write_faults (D.counts depot.new).write_faults)
        (Rose (D.counts depot.old).refused (D.counts depot.new).refused)
        fields.now out.now (shot_data file.now) result }
    ensures write_fault { result ≡ Status.WriteFault
        → Rose (D.counts depot.old).write_faults (D.counts depot.new).write_faults }
    ensures kind { IsOfWriting result }
    ensures counts { CountsFor (D.counts depot.old) (D.counts depot.new) result }
    ensures counted { NeverFall (D.counts depot.old) (D.counts depot.new) }
{
    match span {
        Some(both) => split_shots(alloc, file, fields, both, out, depot),
        None => say_stripes(&[], &no_sums(), depot),
    }
}

// Splits the shots of a file that was read, or answers why they can't be split.
fn split_file<D: Depot>(
    alloc: Global,
    size: u32,
    file: &ShotFile,
    out: &str,
    depot: &mut D,
) -> Status
    requires plain { IsPlainData (shot_data file.now) }
    requires size { 16 ≤ size × size ≤ 16777216 }
    ensures made { IsTrue D.tells → IsSplitFile (D.content depot.old) (D.content depot.new)
        (Rose (D.counts depot.old).write_faults (D.counts depot.new).write_faults)
        (Rose (D.counts depot.old).refused (D.counts depot.new).refused)
        (pos size) out.now (shot_data file.now) result }
    ensures write_fault { result ≡ Status.WriteFault
        → Rose (D.counts depot.old).write_faults (D.counts depot.new).write_faults }
    ensures no_read_fault { result ≡ Status.ReadFault → ⊥ }
    ensures kind { IsOfFile refuses_fields result }
    ensures counts { CountsFor (D.counts depot.old) (D.counts depot.new) result }
    ensures counted { NeverFall (D.counts depot.old) (D.counts depot.new) }
{
    let fields = fields_of(size);
    match span_of(file.shots.as_slice(), &fields) {
        Ok(span) => split_span(alloc, file, &fields, span, out, depot),
        Err(fault) => Status::No(0, fault),
    }
}

/// Reads a shot file and writes one shot file for each stripe of the fields of this size, 16 to 16,777,216 half units,
/// whose name is `out`, a point and the stripe's number.
pub(crate) fn split<D: Depot>(
    alloc: Global,
    size: u32,
    file: &str,
    out: &str,
    depot: &mut D,
) -> Status
    requires { 16 ≤ size × size ≤ 16777216 }
    ensures answer { IsTrue D.tells → IsFileAnswer (splitting_command (pos size) out.now)
        (run_of (D.content depot.old) (D.content depot.new) (D.counts depot.old) (D.counts depot.new))
        file.now result }
    ensures write_fault { result ≡ Status.WriteFault
        → Rose (D.counts depot.old).write_faults (D.counts depot.new).write_faults }
    ensures read_fault { result ≡ Status.ReadFault
        → Rose (D.counts depot.old).read_faults (D.counts depot.new).read_faults ⊎ IsTrue D.tells }
    ensures kind { IsOfFile refuses_fields result }
    ensures counts { CountsFor (D.counts depot.old) (D.counts depot.new) result }
    ensures counted { NeverFall (D.counts depot.old) (D.counts depot.new) }
{
    match read_shot_file(alloc, file, depot) {
        Ok(read) => split_file(alloc, size, &read, out, depot),
        Err(status) => status,
    }
}
