//! The shot files of all outputs.
ghost use Rattle.std.specs.Prelude.{◌≡◌, ◌⊎◌, ◌<◌, [], Err, IsTrue, IfOk, IfErr, OnOk, length};
ghost use Rattle.geo_stream.specs.Refusals.{IfFault};
ghost use Rattle.geo_stream.specs.declared.refusal.Refusal.TheVariants.{Fault, NoMemory};
ghost use Rattle.depot.specs.Content.{ChangesLeftOnly, with_left};
ghost use Rattle.depot.specs.Counts.{NeverFall, Rose};
ghost use Rattle.file_check.specs.Files.{IsExactFile, IsFileFault, OfOutput, AreExactFiles, IsFirstFileFault, CountsFor};

use crate::faults::{CheckBad, CheckFault};
use crate::judging::judge;
use deck_plan::Plan;
use depot::{Depot, Refused, read_all};
use geo_stream::Refusal;
use shot_writer::Sums;
use std::alloc::Global;

/// A shot file has at most this many bytes.
const LIMIT: usize = 268435456;

// The answer to a file that wasn't read.
fn refused_file(place: usize, refused: Refused) -> Refusal<CheckBad>
    ensures fault { refused ≡ Refused.Fault → result ≡ Fault CheckBad.ReadFault }
    ensures long { refused ≡ Refused.TooLong → result ≡ Fault (CheckBad.Refused place CheckFault.Long) }
    ensures wanting { refused ≡ Refused.NoMemory → result ≡ NoMemory }
    ensures read_fault { result ≡ Fault CheckBad.ReadFault → refused ≡ Refused.Fault }
{
    match refused {
        Refused::Fault => Refusal::Fault(CheckBad::ReadFault),
        Refused::TooLong => Refusal::Fault(CheckBad::Refused(place, CheckFault::Long)),
        Refused::NoMemory => Refusal::NoMemory,
    }
}

// Reads the file of an output and judges it.
fn check_file<D: Depot>(
    alloc: Global,
    depot: &mut D,
    plan: &Plan,
    place: usize,
) -> Result<Sums, Refusal<CheckBad>>
    requires { place < length plan.now.deck.outputs }
    ensures ok { IfOk result (λ sums. IsTrue D.tells
        → OfOutput plan.now place (λ output. IsExactFile plan.now place output (D.content depot.old) sums)) }
    ensures refused { IfFault result (λ bad. IsTrue D.tells
        → OfOutput plan.now place (λ output. IsFileFault plan.now place output (D.content depot.old)
        (Rose (D.counts depot.old).read_faults (D.counts depot.new).read_faults) bad)) }
    ensures read_fault { result ≡ Err (Fault CheckBad.ReadFault)
        → Rose (D.counts depot.old).read_faults (D.counts depot.new).read_faults ⊎ IsTrue D.tells }
    ensures others { IsTrue D.tells → ChangesLeftOnly (D.content depot.old) (D.content depot.new) }
    ensures uncounted { OnOk result (D.counts depot.new ≡ D.counts depot.old) }
    ensures counts { IfErr result (CountsFor (D.counts depot.old) (D.counts depot.new)) }
    ensures counted { NeverFall (D.counts depot.old) (D.counts depot.new) }
{
    let file = &plan.deck().outputs.as_slice()[place].file;
    let bytes = match read_all(alloc, depot, file.as_str(), LIMIT) {
        Ok(bytes) => bytes,
        Err(refused) => return Err(refused_file(place, refused)),
    };
    judge(alloc, depot, plan, place, bytes.as_slice())
}

/// Reads the file of each output of the deck in its order and judges it, up to the first that isn't exact. It answers
/// the number of shots and of triangles of each. Each file is judged wholly before the next is read: first whether it
/// is a shot file, then its head, then the limits of its shots, then what they cover. The depot is told how many rows of
/// the output are compared.
///
/// But for what is left to be read, the content of the depot is as before, whatever the answer. The clauses on content
/// hold over a depot that tells it. The others hold over every depot.
pub fn check_files<D: Depot>(
    alloc: Global,
    depot: &mut D,
    plan: &Plan,
) -> Result<Vec<Sums>, Refusal<CheckBad>>
    ensures ok { IfOk result (λ sums. IsTrue D.tells
        → AreExactFiles plan.now (D.content depot.old) (length plan.now.deck.outputs) sums.items) }
    ensures count { IfOk result (λ sums. length sums.items ≡ length plan.now.deck.outputs) }
    ensures refused { IfFault result (λ bad. IsTrue D.tells → IsFirstFileFault plan.now (D.content depot.old)
        (Rose (D.counts depot.old).read_faults (D.counts depot.new).read_faults) bad) }
    ensures read_fault { result ≡ Err (Fault CheckBad.ReadFault)
        → Rose (D.counts depot.old).read_faults (D.counts depot.new).read_faults ⊎ IsTrue D.tells }
    ensures others { IsTrue D.tells → ChangesLeftOnly (D.content depot.old) (D.content depot.new) }
    ensures uncounted { OnOk result (D.counts depot.new ≡ D.counts depot.old) }
    ensures counts { IfErr result (CountsFor (D.counts depot.old) (D.counts depot.new)) }
    ensures counted { NeverFall (D.counts depot.old) (D.counts depot.new) }
{
    let count = plan.deck().outputs.as_slice().len();
    let mut all = Vec::new(alloc);
    for place in 0..count {
        let sums = check_file(alloc, depot, plan, place)?;
        match all.push(sums) {
            Ok(()) => {}
            Err(_refused) => return Err(Refusal::NoMemory),
        }
    }
    Ok(all)
}
