//! The commands `pack` and `unpack`: a shot file, written with modal fields and repetitions, or without.

ghost use Rattle.std.specs.Prelude.{◌≡◌, ◌⊎◌, IsTrue, length};
ghost use Rattle.depot.specs.Counts.{NeverFall, Rose};
ghost use Rattle.mdp_job.specs.Runs.{run_of, IsEndedSo};
ghost use Rattle.mdp_job.specs.Filing.{IsFiled, IsHalfFiled};
ghost use Rattle.mdp_job.specs.ShotFiles.{pair_or, packed_of, packed_line, packed_said};
ghost use Rattle.mdp_job.specs.ShotFiles.{plain_of, unpacked_line, unpacked_said};
ghost use Rattle.mdp_job.specs.FileAnswers.{IsFileAnswer, IsPlainData, IsPackedData, shot_data};
ghost use Rattle.mdp_job.specs.Table.{packing_command, unpacking_command};
ghost use Rattle.mdp_job.specs.Parts.{IsSaidSo, IsOfFile, IsOfWriting, refuses_shots, refuses_packed, CountsFor};

use crate::ending::{fault_status, say_text};
use crate::files::{read_packed_file, read_shot_file};
use crate::plain_files::write_shots;
use depot::Depot;
use job_report::{Piece, Status};
use layout_model::Pair;
use shot_reader::ShotFile;
use shot_repeat::pack_shots;
use shot_writer::Head;
use std::alloc::Global;

/// The pair of the records; where there are none any pair does.
pub(crate) fn pair_or(pair: Option<Pair>) -> Pair
    ensures { result ≡ pair_or pair }
{
    match pair {
        Some(pair) => pair,
        None => Pair {
            layer: 0,
            datatype: 0,
        },
    }
}

// Says how many shots are in how many records.
fn say_packed<D: Depot>(shots: usize, records: u64, depot: &mut D) -> Status
    ensures said { IsTrue D.tells → IsSaidSo (D.content depot.old) (D.content depot.new)
        (Rose (D.counts depot.old).write_faults (D.counts depot.new).write_faults)
        (Rose (D.counts depot.old).refused (D.counts depot.new).refused)
        (packed_line shots records) result }
    ensures write_fault { result ≡ Status.WriteFault
        → Rose (D.counts depot.old).write_faults (D.counts depot.new).write_faults }
    ensures kind { IsOfWriting result }
    ensures counts { CountsFor (D.counts depot.old) (D.counts depot.new) result }
    ensures counted { NeverFall (D.counts depot.old) (D.counts depot.new) }
{
    let pieces = [
        Piece::Text(b"packed "),
        Piece::Count(shots as u128),
        Piece::Text(b" shots in "),
        Piece::Count(u128::from(records)),
        Piece::Text(b" records\n"),
    ];
    say_text(&pieces, depot)
}

// Makes the packed file of a shot file, and says how much it is.
fn pack_file<D: Depot>(file: &ShotFile, out: &str, depot: &mut D) -> Status
    requires { IsPlainData (shot_data file.now) }
    ensures made { IsTrue D.tells → IsEndedSo
        (Rose (D.counts depot.old).write_faults (D.counts depot.new).write_faults)
        (Rose (D.counts depot.old).refused (D.counts depot.new).refused)
        (IsFiled (D.content depot.old) (D.content depot.new) out.now
        (packed_of (shot_data file.now)) (packed_said (shot_data file.now)))
        (IsHalfFiled (D.content depot.old) (D.content depot.new) out.now
        (packed_of (shot_data file.now)) (packed_said (shot_data file.now)))
        result }
    ensures write_fault { result ≡ Status.WriteFault
        → Rose (D.counts depot.old).write_faults (D.counts depot.new).write_faults }
    ensures kind { IsOfWriting result }
    ensures counts { CountsFor (D.counts depot.old) (D.counts depot.new) result }
    ensures counted { NeverFall (D.counts depot.old) (D.counts depot.new) }
{
    let head = Head {
        unit: file.unit,
        pair: pair_or(file.pair),
    };
    match pack_shots(depot, out, head, file.shots.as_slice()) {
        Ok(records) => say_packed(file.shots.as_slice().len(), records, depot),
        Err(bad) => fault_status(bad),
    }
}

/// Reads a shot file and writes it packed.
pub(crate) fn pack<D: Depot>(alloc: Global, file: &str, out: &str, depot: &mut D) -> Status
    ensures answer { IsTrue D.tells → IsFileAnswer (packing_command out.now)
        (run_of (D.content depot.old) (D.content depot.new) (D.counts depot.old) (D.counts depot.new))
        file.now result }
    ensures write_fault { result ≡ Status.WriteFault
        → Rose (D.counts depot.old).write_faults (D.counts depot.new).write_faults }
    ensures read_fault { result ≡ Status.ReadFault
        → Rose (D.counts depot.old).read_faults (D.counts depot.new).read_faults ⊎ IsTrue D.tells }
    ensures kind { IsOfFile refuses_shots result }
    ensures counts { CountsFor (D.counts depot.old) (D.counts depot.new) result }
    ensures counted { NeverFall (D.counts depot.old) (D.counts depot.new) }
{
    match read_shot_file(alloc, file, depot) {
        Ok(read) => pack_file(&read, out, depot),
        Err(status) => status,
    }
}

// Says how many shots there are.
fn say_unpacked<D: Depot>(shots: usize, depot: &mut D) -> Status
    ensures said { IsTrue D.tells → IsSaidSo (D.content depot.old) (D.content depot.new)
        (Rose (D.counts depot.old).write_faults (D.counts depot.new).write_faults)
        (Rose (D.counts depot.old).refused (D.counts depot.new).refused)
        (unpacked_line shots) result }
    ensures write_fault { result ≡ Status.WriteFault
        → Rose (D.counts depot.old).write_faults (D.counts depot.new).write_faults }
    ensures kind { IsOfWriting result }
    ensures counts { CountsFor (D.counts depot.old) (D.counts depot.new) result }
    ensures counted { NeverFall (D.counts depot.old) (D.counts depot.new) }
{
    let pieces = [
        Piece::Text(b"unpacked "),
        Piece::Count(shots as u128),
        Piece::Text(b" shots\n"),
    ];
    say_text(&pieces, depot)
}

// Makes the plain file of the shots for which a packed one stands, and says how much it is.
fn unpack_file<D: Depot>(file: &ShotFile, out: &str, depot: &mut D) -> Status
    requires { IsPackedData (shot_data file.now) }
    ensures made { IsTrue D.tells → IsEndedSo
        (Rose (D.counts depot.old).write_faults (D.counts depot.new).write_faults)
        (Rose (D.counts depot.old).refused (D.counts depot.new).refused)
        (IsFiled (D.content depot.old) (D.content depot.new) out.now
        (plain_of (shot_data file.now)) (unpacked_said (shot_data file.now)))
        (IsHalfFiled (D.content depot.old) (D.content depot.new) out.now
        (plain_of (shot_data file.now)) (unpacked_said (shot_data file.now)))
        result }
    ensures write_fault { result ≡ Status.WriteFault
        → Rose (D.counts depot.old).write_faults (D.counts depot.new).write_faults }
    ensures kind { IsOfWriting result }
    ensures counts { CountsFor (D.counts depot.old) (D.counts depot.new) result }
    ensures counted { NeverFall (D.counts depot.old) (D.counts depot.new) }
{
    let head = Head {
        unit: file.unit,
        pair: pair_or(file.pair),
    };
    match write_shots(depot, out, head, file.shots.as_slice()) {
        Ok(()) => say_unpacked(file.shots.as_slice().len(), depot),
        Err(bad) => fault_status(bad),
    }
}

/// Reads a packed shot file and writes it plain.
pub(crate) fn unpack<D: Depot>(alloc: Global, file: &str, out: &str, depot: &mut D) -> Status
    ensures answer { IsTrue D.tells → IsFileAnswer (unpacking_command out.now)
        (run_of (D.content depot.old) (D.content depot.new) (D.counts depot.old) (D.counts depot.new))
        file.now result }
    ensures write_fault { result ≡ Status.WriteFault
        → Rose (D.counts depot.old).write_faults (D.counts depot.new).write_faults }
    ensures read_fault { result ≡ Status.ReadFault
        → Rose (D.counts depot.old).read_faults (D.counts depot.new).read_faults ⊎ IsTrue D.tells }
    ensures kind { IsOfFile refuses_packed result }
    ensures counts { CountsFor (D.counts depot.old) (D.counts depot.new) result }
    ensures counted { NeverFall (D.counts depot.old) (D.counts depot.new) }
{
    match read_packed_file(alloc, file, depot) {
        Ok(read) => unpack_file(&read, out, depot),
        Err(status) => status,
    }
}
