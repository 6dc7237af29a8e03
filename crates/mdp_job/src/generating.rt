//! The command `generate`: the generated layout of a number.
ghost use Rattle.std.specs.Prelude.{◌≡◌, ◌≤◌, IsTrue};
ghost use Rattle.depot.specs.Counts.{NeverFall, Rose};
ghost use Rattle.mdp_job.specs.Generating.{IsGeneratedSo, size_line};
ghost use Rattle.mdp_job.specs.Parts.{IsSaidSo, IsOfWriting, CountsFor};

use crate::ending::{fault_status, say_text};
use depot::Depot;
use job_report::{Piece, Status};
use layout_gen::generate;

// Says how many bytes the file has.
fn say_size<D: Depot>(size: u64, depot: &mut D) -> Status
    ensures said { IsTrue D.tells → IsSaidSo (D.content depot.old) (D.content depot.new)
        (Rose (D.counts depot.old).write_faults (D.counts depot.new).write_faults)
        (Rose (D.counts depot.old).refused (D.counts depot.new).refused)
        (size_line size) result }
    ensures write_fault { result ≡ Status.WriteFault
        → Rose (D.counts depot.old).write_faults (D.counts depot.new).write_faults }
    ensures kind { IsOfWriting result }
    ensures counts { CountsFor (D.counts depot.old) (D.counts depot.new) result }
    ensures counted { NeverFall (D.counts depot.old) (D.counts depot.new) }
{
    let pieces = [
        Piece::Text(b"generated "),
        Piece::Count(u128::from(size)),
        Piece::Text(b" bytes\n"),
    ];
    say_text(&pieces, depot)
}

/// Writes the generated layout for `n`, which is 1 to 1,000, and prints how many bytes it has.
pub(crate) fn generate_layout<D: Depot>(n: u16, file: &str, depot: &mut D) -> Status
    requires least { 1 ≤ n }
    requires most { n ≤ 1000 }
    ensures made { IsTrue D.tells → IsGeneratedSo (D.content depot.old) (D.content depot.new)
        (Rose (D.counts depot.old).write_faults (D.counts depot.new).write_faults)
        (Rose (D.counts depot.old).refused (D.counts depot.new).refused) n file.now result }
    ensures write_fault { result ≡ Status.WriteFault
        → Rose (D.counts depot.old).write_faults (D.counts depot.new).write_faults }
    ensures kind { IsOfWriting result }
    ensures counts { CountsFor (D.counts depot.old) (D.counts depot.new) result }
    ensures counted { NeverFall (D.counts depot.old) (D.counts depot.new) }
{
    match generate(depot, n, file) {
        Ok(size) => say_size(size, depot),
        Err(bad) => fault_status(bad),
    }
}
