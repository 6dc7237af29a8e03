//! Writing a shot file, shot by shot.
ghost use Rattle.std.specs.Prelude.{◌≡◌, ◌+◌, ◌^◌, ◌<◌, ◌≤◌, List, [], None, Some, Err, IsTrue, IsSome, IfOk, OnOk, OnErr, length};
ghost use Rattle.std.specs.Result.{result_err};
ghost use Rattle.depot.specs.Counting.{CountsWrites};
ghost use Rattle.depot.specs.Doing.{Makes, Writes};
ghost use Rattle.shot_writer.specs.Counting.{CountsUnlessKept};
ghost use Rattle.depot.specs.declared.outside.DepotBad.{DepotBad as Bad};
ghost use Rattle.geo_stream.specs.Stream.{HasList};
ghost use Rattle.half_grid.specs.Trapezoids.{Trapezoid};
ghost use Rattle.oas_lex.specs.ShotText.{IsUnit, head as head_of, end};
ghost use Rattle.shot_writer.specs.Writing.{triangles_of, records_of, StandsForSuffix, AreSumsAfter, no_sums};

use crate::parts::{Head, Sums};
use crate::pouring::pour;
use depot::{Depot, DepotBad, make_file, write_whole};
use geo_stream::Stream;
use half_grid::Trap;
use layout_model::Pair;
use oas_lex::{end_text, head_text};

/// A shot file that is being written. After a refusal each of its calls answers this refusal, without a call of
/// the depot.
#[derive(Drop)]
pub struct ShotWriter {
    pair: Pair,
    sums: Sums,
    refusal: Option<DepotBad>,
    ghost layer: { pair.layer < 2 ^ 63 },
    ghost datatype: { pair.datatype < 2 ^ 63 },
    ghost fewer: { sums.shots ≤ sums.triangles },
}

impl ShotWriter {
    ghost use Rattle.shot_writer.specs.WriterView.{pair_of, sums_of, refusal_of};

    /// Makes the file with the head of a shot file alone, for the unit and the pair. After a refusal the name is
    /// as before, or holds a prefix of the head.
    pub fn start<D: Depot>(depot: &mut D, name: &str, head: Head) -> Result<ShotWriter, DepotBad>
        requires unit { IsUnit head.unit }
        requires layer { head.pair.layer < 2 ^ 63 }
        requires datatype { head.pair.datatype < 2 ^ 63 }
        ensures content { Makes D.tells (D.content depot.old) (D.content depot.new) name.now (head_of head.unit) result }
        ensures pair { IfOk result (λ writer. pair_of writer ≡ head.pair) }
        ensures sums { IfOk result (λ writer. sums_of writer ≡ no_sums) }
        ensures kept { IfOk result (λ writer. refusal_of writer ≡ None) }
        ensures counts { CountsWrites (D.counts depot.old) (D.counts depot.new) result }
    {
        make_file(depot, name, head_text(u64::from(head.unit)).bytes())?;
        Ok(ShotWriter {
            pair: head.pair,
            sums: Sums {
                shots: 0,
                triangles: 0,
            },
            refusal: None,
        })
    }

    /// Appends the records of the stream's list, and adds its shots and their triangles to the sums. After a
    /// refusal the sums are as before, and the stream has what it didn't give.
    pub fn put<D: Depot, S: Stream<Item = Trap>>(
        &mut self,
        depot: &mut D,
        shots: &mut S,
    ) -> Result<(), DepotBad>
        requires current { IsTrue D.tells → IsSome (D.content depot.old).current }
        requires list { HasList S.stands_for shots.old }
        requires room { (items : List Trapezoid) → S.stands_for shots.old items
            → (sums_of self.old).triangles + triangles_of items < 2 ^ 127 }
        ensures content { (items : List Trapezoid) → S.stands_for shots.old items
            → Writes D.tells (D.content depot.old) (D.content depot.new) (records_of (pair_of self.old) items) result }
        ensures sums { (items : List Trapezoid) → S.stands_for shots.old items
            → OnOk result (AreSumsAfter (sums_of self.old) items (sums_of self.new)) }
        ensures taken { OnOk result (S.stands_for shots.new []) }
        ensures same_sums { OnErr result (sums_of self.new ≡ sums_of self.old) }
        ensures left { (items : List Trapezoid) → S.stands_for shots.old items
            → StandsForSuffix S.stands_for items shots.new }
        ensures pair { pair_of self.new ≡ pair_of self.old }
        ensures keeps { refusal_of self.new ≡ result_err result }
        ensures kept { (bad : Bad) → refusal_of self.old ≡ Some bad
            → (result ≡ Err bad) × (depot.new ≡ depot.old) × (shots.new ≡ shots.old) }
        ensures current { IsTrue D.tells
            → (D.content depot.new).current ≡ (D.content depot.old).current }
        ensures counts { CountsUnlessKept (refusal_of self.old) (D.counts depot.old) (D.counts depot.new) result }
    {
        if let Some(bad) = self.refusal {
            return Err(bad);
        }
        match pour(depot, self.pair, self.sums, shots) {
            Ok(sums) => {
                self.sums = sums;
                Ok(())
            }
            Err(bad) => {
                self.refusal = Some(bad);
                Err(bad)
            }
        }
    }

    /// The sums of all shots that were put.
    pub fn sums(&self) -> Sums
        ensures { result ≡ sums_of self.now }
    {
        self.sums
    }

    /// Appends END, and answers the sums of all shots that were put.
    pub fn finish<D: Depot>(self, depot: &mut D) -> Result<Sums, DepotBad>
        requires { IsTrue D.tells → IsSome (D.content depot.old).current }
        ensures content { Writes D.tells (D.content depot.old) (D.content depot.new) end result }
        ensures sums { IfOk result (λ sums. sums ≡ sums_of self) }
        ensures kept { (bad : Bad) → refusal_of self ≡ Some bad
            → (result ≡ Err bad) × (depot.new ≡ depot.old) }
        ensures current { IsTrue D.tells
            → (D.content depot.new).current ≡ (D.content depot.old).current }
        ensures counts { CountsUnlessKept (refusal_of self) (D.counts depot.old) (D.counts depot.new) result }
    {
        if let Some(kept) = self.refusal {
            return Err(kept);
        }
        write_whole(depot, &end_text())?;
        Ok(self.sums)
    }
}
