//! The answers to all words.

ghost use Rattle.std.specs.Prelude.{◌≡◌, ◌≢◌, ◌⊎◌, ◌↔◌, IsTrue};
ghost use Rattle.depot.specs.Counts.{NeverFall, Rose};
ghost use Rattle.depot.specs.Sure.{sure_content, sure_counts};
ghost use Rattle.job_words.specs.Texts.{texts};
ghost use Rattle.job_words.specs.Words.{IsNoCommand};
ghost use Rattle.mdp_job.specs.Runs.{run_of};
ghost use Rattle.mdp_job.specs.Headline.{Covers, Certifies};
ghost use Rattle.mdp_job.specs.Clauses.{IsAccepted, Belongs, FaultsTold, Coverage, Acceptance, Refusals, Speech};
ghost use Rattle.mdp_job.specs.Clauses.{Remains};
ghost use Rattle.mdp_job.specs.Table.{IsAnswerTo, NamesFile};
ghost use Rattle.mdp_job.specs.Parts.{CountsFor};

use crate::checking::check;
use crate::fracturing::fracture;
use crate::generating::generate_layout;
use crate::listing::list_shots;
use crate::mapping::density;
use crate::packing::{pack, unpack};
use crate::splitting::split;
use depot::{Depot, SureDepot};
use job_report::{Ending, Status, say_line};
use job_words::{
    check_names, density_words, file_word, fracture_names, generate_words, pack_names, shots_name,
    split_words, unpack_names,
};
use std::alloc::Global;

// Does the command, by the table of answers.
fn answered<D: Depot>(alloc: Global, words: &[String], depot: &mut D) -> Ending
    ensures table { IsTrue D.tells → IsAnswerTo D.tells
        (run_of (D.content depot.old) (D.content depot.new) (D.counts depot.old) (D.counts depot.new))
        (texts words.now) result.status result.top }
    ensures file { IsTrue D.tells → NamesFile (D.content depot.old) (texts words.now) result.status result.outputs }
    ensures words { (result.status ≡ Status.Words) ↔ IsNoCommand (texts words.now) }
    ensures belongs { Belongs (texts words.now) result.status }
    ensures write_fault { result.status ≡ Status.WriteFault
        → Rose (D.counts depot.old).write_faults (D.counts depot.new).write_faults }
    ensures read_fault { result.status ≡ Status.ReadFault
        → Rose (D.counts depot.old).read_faults (D.counts depot.new).read_faults ⊎ IsTrue D.tells }
    ensures counts { CountsFor (D.counts depot.old) (D.counts depot.new) result.status }
    ensures counted { NeverFall (D.counts depot.old) (D.counts depot.new) }
{
    if let Some((layout, deck)) = fracture_names(words) {
        return fracture(alloc, layout, deck, depot);
    }
    if let Some((layout, deck)) = check_names(words) {
        return check(alloc, layout, deck, depot);
    }
    if let Some(file) = shots_name(words) {
        return Ending::plain(list_shots(alloc, file, depot));
    }
    if let Some((file, out)) = pack_names(words) {
        return Ending::plain(pack(alloc, file, out, depot));
    }
    if let Some((file, out)) = unpack_names(words) {
        return Ending::plain(unpack(alloc, file, out, depot));
    }
    if let Some((size, file, out)) = split_words(words) {
        return Ending::plain(split(alloc, size, file, out, depot));
    }
    if let Some((size, layout, deck)) = density_words(words) {
        return density(alloc, size, layout, deck, depot);
    }
    if let Some((n, file)) = generate_words(words) {
        return Ending::plain(generate_layout(n, file, depot));
    }
    Ending::plain(Status::Words)
}

/// Does what the words say, and answers how it ended. The words don't have the program's own name in them. They are
///
/// - `fracture LAYOUT DECK`: of the areas that the deck denotes of the layout the shots are written into the files of
///   the deck's outputs, and then the report is printed;
/// - `check LAYOUT DECK`: the files of the deck's outputs, whoever made them, are judged by the areas that the deck
///   denotes of the layout, and where all are exact the report is printed;
/// - `shots FILE`: the shots of a shot file are listed on standard output;
/// - `pack FILE OUT`: a shot file is written with modal fields and repetitions;
/// - `unpack FILE OUT`: a packed shot file is written as a plain one;
/// - `split SIZE FILE OUT`: the shots of a shot file are cut along the lines of square fields of that size, 16 to
///   16,777,216 half units, and those of each stripe of fields are written into a file of its own;
/// - `density SIZE LAYOUT DECK`: for each of the deck's outputs it is printed how many triangles of the area that the
///   deck denotes of the layout are in each square window of that size, 64 to 16,777,216 half units;
/// - `generate N FILE`: the generated layout of a number from 1 to 1,000 is written.
///
/// An answer other than Done is printed in one line; a failure to print that line changes nothing.
///
/// The first three clauses hold over every depot, the others over one that tells its content. The headline is the field
/// `cover` of the first of these: after `fracture` ends with Done, every output file is the one text of a list of legal
/// shots within the deck's limits; each half-grid triangle lies in exactly one of them if it lies in the area that the
/// deck denotes of the layout, and in none otherwise.
pub fn run<D: Depot>(alloc: Global, words: &[String], depot: &mut D) -> Status
    ensures words { (result ≡ Status.Words) ↔ IsNoCommand (texts words.now) }
    ensures belongs { Belongs (texts words.now) result }
    ensures faults_told { FaultsTold (D.counts depot.old) (D.counts depot.new) (IsTrue D.tells) result }
    ensures covers { IsTrue D.tells → Coverage
        (run_of (D.content depot.old) (D.content depot.new) (D.counts depot.old) (D.counts depot.new))
        (texts words.now) result }
    ensures certifies { IsTrue D.tells → Certifies
        (run_of (D.content depot.old) (D.content depot.new) (D.counts depot.old) (D.counts depot.new))
        (texts words.now) result }
    ensures accepts { IsTrue D.tells → Acceptance
        (run_of (D.content depot.old) (D.content depot.new) (D.counts depot.old) (D.counts depot.new))
        (texts words.now) result }
    ensures refuses { IsTrue D.tells → Refusals
        (run_of (D.content depot.old) (D.content depot.new) (D.counts depot.old) (D.counts depot.new))
        (texts words.now) result }
    ensures leaves { IsTrue D.tells → Remains
        (run_of (D.content depot.old) (D.content depot.new) (D.counts depot.old) (D.counts depot.new))
        (texts words.now) result }
    ensures says { IsTrue D.tells → Speech
        (run_of (D.content depot.old) (D.content depot.new) (D.counts depot.old) (D.counts depot.new))
        (texts words.now) result }
{
    let ending = answered(alloc, words, depot);
    say_line(depot, file_word(words), &ending);
    ending.status
}

/// Does what the words say over a depot that never fails: the answer is then neither of the two faults, and memory
/// aside it is Done exactly where the input is accepted.
pub fn run_surely(alloc: Global, words: &[String], depot: &mut SureDepot) -> Status
    ensures words { (result ≡ Status.Words) ↔ IsNoCommand (texts words.now) }
    ensures accepted { result ≢ Status.NoMemory
        → (result ≡ Status.Done) ↔ IsAccepted (texts words.now) (sure_content depot.old) }
    ensures cover { Covers
        (run_of (sure_content depot.old) (sure_content depot.new) (sure_counts depot.old) (sure_counts depot.new))
        (texts words.now) result }
    ensures no_read_fault { result ≡ Status.ReadFault → ⊥ }
    ensures no_write_fault { result ≡ Status.WriteFault → ⊥ }
{
    run(alloc, words, depot)
}
