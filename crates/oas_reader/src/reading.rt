//! The whole file.
ghost use Rattle.std.specs.Prelude.{◌≡◌, ◌⊎◌, ◌≤◌, ◌<◌, ◌^◌, ◌↔◌, ℕ, pos, List as AList, [], ◌∷◌, true, Err, Ok, IfOk, IfErr, OnOk, IsTrue, option_copied, take as the_take};
ghost use Rattle.geo_stream.specs.Refusals.{IfFault};
ghost use Rattle.geo_stream.specs.declared.refusal.Refusal.TheVariants.{Fault, NoMemory};
ghost use Rattle.layout_model.specs.Layouts.{IsLayoutOnGrid};
ghost use Rattle.layout_model.specs.declared.cells.Layout.{Layout as ALayout};
ghost use Rattle.layout_model.specs.declared.pair.Pair.{Pair as APair};
ghost use Rattle.oas_lex.specs.Reals.{IsWholeOasisReal};
ghost use Rattle.oas_record.specs.Plain.{rectangle_of};
ghost use Rattle.oas_record.specs.Taken.{repetition_in};
ghost use Rattle.oas_record.specs.declared.records.OasRecord.{OasRecord as ARecord};
ghost use Rattle.oas_fields.specs.Values.{AreFields, IsPlaceWithin, ArePlacesWithin, repetition_of};
ghost use Rattle.oas_shapes.specs.Repetitions.{HasDimensionsIn};
ghost use Rattle.oas_reader.specs.Bodies.{body_of};
ghost use Rattle.layout_model.specs.Pairs.{AreSorted, AreSamePairs};
ghost use Rattle.layout_model.specs.Counting.{AreAtMost};
ghost use Rattle.oas_reader.specs.Files.{KeepsFile, BreaksFile, lexical_refusal, tables_by, HaveRecords, IsBodyKept, IsBadBody, IsLayoutBehind};
ghost use Rattle.oas_reader.specs.Items.{Item, records_in, magic, is_end, NoItemEnds};
ghost use Rattle.oas_reader.specs.Meaning.{counts_of};
ghost use Rattle.oas_reader.specs.Naming.{AreCalledWithin, HaveSpans, AreNamesOf};
ghost use Rattle.oas_reader.specs.Order.{is_in_order};
ghost use Rattle.oas_reader.specs.Plain.{plain};
ghost use Rattle.oas_reader.specs.Readers.{AreDraftsOf, AreDraftsWithin, IsReaderOf, IsReaderWithin};
ghost use Rattle.oas_reader.specs.Reading.{item, IsItemAllowed, IsRefused, IsOasisLayoutOf, IsFaultOfNames, IsFirstOasisFault};
ghost use Rattle.oas_reader.specs.Taking.{IsBodyWithin, IsTaken};
ghost use Rattle.oas_reader.specs.Undefined.{is_there};
ghost use Rattle.oas_reader.specs.declared.bodies.Body.TheVariants as bodies;
ghost use Rattle.oas_reader.specs.declared.refusing.OasBad.{OasBad as ABad};

use crate::bodies::{Body, Outline};
use crate::cells::Drafts;
use crate::counting;
use crate::finishing::cells_of;
use crate::ids::{id_of, is_end};
use crate::naming::Names;
use crate::order::Place;
use crate::plain::take_plain;
use crate::refusing::OasBad;
use crate::reusing::{make_places, make_points, points_again, repeated_again};
use crate::taking::take_names;
use crate::values::take_values;
use geo_stream::Refusal;
use layout_model::{Counts, Layout, NO_COUNTS, Pair, sorted_pairs};
use oas_fields::Fields;
use oas_lex::{Real, real_whole};
use oas_record::{OasRecord, PlainRectangle, RecordBad, Rep, plain_rectangle_at, record_at};
use oas_shapes::dimensions_are_allowed;
use std::alloc::Global;

const MAGIC: &[u8] = b"%SEMI-OASIS\r\n";

const END_SIZE: usize = 256;

// The id of a RECTANGLE.
const RECTANGLE: u8 = 20;

/// What is kept of the records so far.
#[derive(Drop)]
struct Reader<'a> {
    place: Place,
    // Whether END holds the table offsets.
    tables: bool,
    fields: Fields<'a>,
    names: Names<'a>,
    drafts: Drafts,
    counts: Counts,
}

// How a record is repeated, where that is written.
fn written_repetition<'r, 'f>(current: &'r OasRecord<'f>) -> Option<&'r Rep<'f>>
    ensures { option_copied result ≡ repetition_in current.now }
{
    match current {
        OasRecord::Placement { repetition, .. } => repetition.as_ref(),
        OasRecord::Text { repetition, .. } => repetition.as_ref(),
        OasRecord::Shape { head, .. } => head.repetition.as_ref(),
        _ => None,
    }
}

fn outline_of(current: &OasRecord<'_>) -> Outline
    ensures body { result.body ≡ body_of current.now }
    ensures repeats { result.repeats ≡ is_there (repetition_in current.now) }
    ensures dimensions { IsTrue result.has_dimensions ↔ HasDimensionsIn (repetition_in current.now) }
{
    let body = Body::of(current);
    match written_repetition(current) {
        Some(repetition) => Outline {
            body,
            repeats: true,
            has_dimensions: dimensions_are_allowed(repetition),
        },
        None => Outline {
            body,
            repeats: false,
            has_dimensions: true,
        },
    }
}

// Whether START has this unit.
fn has_unit(real: Real, unit: u32) -> bool
    ensures { IsTrue result ↔ IsWholeOasisReal real (pos unit) }
{
    match real_whole(real) {
        Some(whole) => whole == i64::from(unit),
        None => false,
    }
}

// Refuses a START of another unit, and an END that isn't 256 bytes up to the end of the file.
fn look_at_file(bytes: &[u8], unit: u32, body: Body, at: usize, next: usize) -> Result<(), OasBad>
    requires { at ≤ next }
    ensures kept { OnOk result (KeepsFile bytes.now unit body at next) }
    ensures broken { IfErr result (BreaksFile bytes.now unit body at next) }
{
    match body {
        Body::Start { unit: real, .. } => {
            if has_unit(real, unit) {
                return Ok(());
            }
            Err(OasBad::Unit(at))
        }
        Body::End { .. } => {
            if next - at == END_SIZE && next == bytes.len() {
                return Ok(());
            }
            Err(OasBad::Tail(at))
        }
        _ => Ok(()),
    }
}

// Whether END holds the table offsets, after one more record.
fn tables_after(tables: bool, body: Body) -> bool
    ensures { result ≡ tables_by body tables }
{
    match body {
        Body::Start { offset_flag: 1, .. } => true,
        _ => tables,
    }
}

// Takes the record into the fields. The places of a repetition, the outline of a polygon's point list and the
// rectangles of a path's that are used again are made, once.
fn take_fields<'f>(
    alloc: Global,
    bytes: &[u8],
    sorted: &[Pair],
    fields: &mut Fields<'f>,
    current: OasRecord<'f>,
)
    requires sorted { AreSorted sorted.now }
    requires near { ArePlacesWithin (2 ^ 100) fields.old }
    requires some { HaveRecords fields.old }
    requires cell { AreCalledWithin bytes.now fields.old.cell }
    requires body { IsBodyWithin bytes.now (body_of current) }
    ensures fields { (past : AList ARecord) → AreFields past fields.old → AreFields (current.entry ∷ past) fields.new }
    ensures cell { AreCalledWithin bytes.now fields.new.cell }
{
    let again = repeated_again(&current);
    let same_points = points_again(&current);
    fields.take(current);
    make_places(alloc, sorted, fields, again);
    make_points(alloc, sorted, fields, same_points);
}

// Takes a rectangle into the fields.
#[inline(always)]
fn take_rectangle_fields(bytes: &[u8], fields: &mut Fields<'_>, current: &PlainRectangle)
    requires near { ArePlacesWithin (2 ^ 100) fields.old }
    requires some { HaveRecords fields.old }
    requires cell { AreCalledWithin bytes.now fields.old.cell }
    ensures fields { (past : AList ARecord) → AreFields past fields.old → AreFields (rectangle_of current.now ∷ past) fields.new }
    ensures cell { AreCalledWithin bytes.now fields.new.cell }
    ensures placement { fields.new.placement ≡ fields.old.placement }
    ensures text { fields.new.text ≡ fields.old.text }
{
    fields.take_rectangle(current);
}

impl<'a> Reader<'a> {
    fn new(alloc: Global, file: &[u8]) -> Reader<'a>
        ensures reader { (bytes : AList ℕ) (wanted : AList APair) → IsReaderOf bytes wanted [] result }
        ensures within { (bytes : AList ℕ) → IsReaderWithin bytes result }
    {
        Reader {
            place: Place::Start,
            tables: false,
            fields: Fields::new(),
            names: Names::new(alloc, file),
            drafts: Drafts::new(alloc),
            counts: NO_COUNTS,
        }
    }

    // Looks at the values of the record at this offset, and takes what it gives. The fields have taken it.
    #[inline(always)]
    fn take_body(
        &mut self,
        alloc: Global,
        bytes: &'a [u8],
        sorted: &[Pair],
        outline: Outline,
        at: usize,
    ) -> Result<(), Refusal<OasBad>>
        requires body { IsBodyWithin bytes.now outline.body }
        requires cell { AreCalledWithin bytes.now self.old.fields.cell }
        requires sorted { AreSorted sorted.now }
        requires counted { self.old.names.counted < 2 ^ 63 }
        requires few { AreAtMost (2 ^ 63) self.old.counts }
        ensures place { self.new.place ≡ self.old.place }
        ensures tables { self.new.tables ≡ self.old.tables }
        ensures fields { self.new.fields ≡ self.old.fields }
        ensures near { OnOk result (ArePlacesWithin (2 ^ 40) self.old.fields) }
        ensures drafts { (wanted : AList APair) (past : AList Item) (r : ARecord) → IsTaken wanted sorted.now (records_in past) r outline self.old.fields
            → AreDraftsOf wanted past self.old.drafts → OnOk result (AreDraftsOf wanted (item at r ∷ past) self.new.drafts) }
        ensures within { AreDraftsWithin bytes.now self.old.drafts → OnOk result (AreDraftsWithin bytes.now self.new.drafts) }
        ensures names { (past : AList Item) (r : ARecord) → outline.body ≡ body_of r → AreNamesOf bytes.now past self.old.names
            → OnOk result (AreNamesOf bytes.now (item at r ∷ past) self.new.names) }
        ensures spans { HaveSpans bytes.now self.old.names → OnOk result (HaveSpans bytes.now self.new.names) }
        ensures counts { (wanted : AList APair) (past : AList ARecord) (r : ARecord) → IsTaken wanted sorted.now past r outline self.old.fields
            → self.old.counts ≡ counts_of wanted past → OnOk result (self.new.counts ≡ counts_of wanted (r ∷ past)) }
        ensures kept { (wanted : AList APair) (past : AList Item) (r : ARecord) → IsTaken wanted sorted.now (records_in past) r outline self.old.fields
            → AreNamesOf bytes.now past self.old.names → OnOk result (IsBodyKept bytes.now wanted past r) }
        ensures bad { (wanted : AList APair) (past : AList Item) (r : ARecord) → IsTaken wanted sorted.now (records_in past) r outline self.old.fields
            → AreNamesOf bytes.now past self.old.names → IfFault result (IsBadBody bytes.now wanted past at r) }
    {
        let valued = take_values(
            alloc,
            bytes,
            sorted,
            &self.fields,
            outline,
            at,
            &mut self.drafts,
        );
        let wanted = match valued {
            Ok(wanted) => wanted,
            Err(bad) => return Err(bad),
        };
        let named = take_names(
            alloc,
            bytes,
            &mut self.names,
            &mut self.drafts,
            outline.body,
            at,
        );
        match named {
            Ok(()) => {}
            Err(bad) => return Err(bad),
        }
        self.counts = counting::with(self.counts, outline.body, wanted);
        Ok(())
    }

    // Looks at the values of the rectangle at this offset, and takes what it gives, as `take_body` does. The fields
    // have taken it, and the positions of placements and texts were near before it.
    #[inline(always)]
    fn take_box(
        &mut self,
        alloc: Global,
        bytes: &'a [u8],
        sorted: &[Pair],
        at: usize,
    ) -> Result<(), Refusal<OasBad>>
        requires sorted { AreSorted sorted.now }
        requires placement { IsPlaceWithin (2 ^ 40) self.old.fields.placement }
        requires text { IsPlaceWithin (2 ^ 40) self.old.fields.text }
        requires few { AreAtMost (2 ^ 63) self.old.counts }
        ensures place { self.new.place ≡ self.old.place }
        ensures tables { self.new.tables ≡ self.old.tables }
        ensures fields { self.new.fields ≡ self.old.fields }
        ensures near { OnOk result (ArePlacesWithin (2 ^ 40) self.old.fields) }
        ensures drafts { (wanted : AList APair) (past : AList Item) (r : ARecord) → IsTaken wanted sorted.now (records_in past) r plain self.old.fields
            → AreDraftsOf wanted past self.old.drafts → OnOk result (AreDraftsOf wanted (item at r ∷ past) self.new.drafts) }
        ensures within { AreDraftsWithin bytes.now self.old.drafts → OnOk result (AreDraftsWithin bytes.now self.new.drafts) }
        ensures names { (past : AList Item) (r : ARecord) → bodies.Rectangle ≡ body_of r → AreNamesOf bytes.now past self.old.names
            → OnOk result (AreNamesOf bytes.now (item at r ∷ past) self.new.names) }
        ensures spans { HaveSpans bytes.now self.old.names → OnOk result (HaveSpans bytes.now self.new.names) }
        ensures counts { (wanted : AList APair) (past : AList ARecord) (r : ARecord) → IsTaken wanted sorted.now past r plain self.old.fields
            → self.old.counts ≡ counts_of wanted past → OnOk result (self.new.counts ≡ counts_of wanted (r ∷ past)) }
        ensures kept { (wanted : AList APair) (past : AList Item) (r : ARecord) → IsTaken wanted sorted.now (records_in past) r plain self.old.fields
            → AreNamesOf bytes.now past self.old.names → OnOk result (IsBodyKept bytes.now wanted past r) }
        ensures bad { (wanted : AList APair) (past : AList Item) (r : ARecord) → IsTaken wanted sorted.now (records_in past) r plain self.old.fields
            → AreNamesOf bytes.now past self.old.names → IfFault result (IsBadBody bytes.now wanted past at r) }
    {
        match take_plain(alloc, sorted, &self.fields, at, &mut self.drafts) {
            Ok(is_wanted) => {
                counting::count_shape(&mut self.counts, is_wanted);
                Ok(())
            }
            Err(bad) => Err(bad),
        }
    }

    // Takes the record at this offset, which ends before `next`.
    fn take(
        &mut self,
        alloc: Global,
        bytes: &'a [u8],
        unit: u32,
        sorted: &[Pair],
        current: OasRecord<'a>,
        at: usize,
        next: usize,
    ) -> Result<(), Refusal<OasBad>>
        requires at { at ≤ next }
        requires body { IsBodyWithin bytes.now (body_of current) }
        requires sorted { AreSorted sorted.now }
        requires within { IsReaderWithin bytes.now self.old }
        requires some { HaveRecords self.old.fields }
        requires counted { self.old.names.counted < 2 ^ 63 }
        requires few { AreAtMost (2 ^ 63) self.old.counts }
        ensures reader { (wanted : AList APair) (past : AList Item) → AreSamePairs wanted sorted.now → IsReaderOf bytes.now wanted past self.old
            → HasDimensionsIn (repetition_of (records_in past))
            → OnOk result (IsReaderOf bytes.now wanted (item at current.entry ∷ past) self.new) }
        ensures within { OnOk result (IsReaderWithin bytes.now self.new) }
        ensures order { (wanted : AList APair) (past : AList Item) → AreSamePairs wanted sorted.now → IsReaderOf bytes.now wanted past self.old
            → OnOk result (is_in_order (records_in past) current.entry ≡ true) }
        ensures allowed { (wanted : AList APair) (past : AList Item) → AreSamePairs wanted sorted.now → IsReaderOf bytes.now wanted past self.old
            → HasDimensionsIn (repetition_of (records_in past))
            → OnOk result (IsItemAllowed bytes.now unit wanted past at current.entry next) }
        ensures refused { (wanted : AList APair) (past : AList Item) → AreSamePairs wanted sorted.now → IsReaderOf bytes.now wanted past self.old
            → HasDimensionsIn (repetition_of (records_in past))
            → IfFault result (IsRefused bytes.now unit wanted past at current.entry next) }
    {
        let Some(place) = self.place.after(id_of(&current)) else {
            return Err(Refusal::Fault(OasBad::Order(at)));
        };
        let outline = outline_of(&current);
        take_fields(alloc, bytes, sorted, &mut self.fields, current);
        match self.take_body(alloc, bytes, sorted, outline, at) {
            Ok(()) => {}
            Err(bad) => return Err(bad),
        }
        match look_at_file(bytes, unit, outline.body, at, next) {
            Ok(()) => {}
            Err(bad) => return Err(Refusal::Fault(bad)),
        }
        self.tables = tables_after(self.tables, outline.body);
        self.place = place;
        Ok(())
    }

    // Takes the rectangle at this offset.
    #[inline(always)]
    fn take_rectangle(
        &mut self,
        alloc: Global,
        bytes: &'a [u8],
        sorted: &[Pair],
        current: &PlainRectangle,
        at: usize,
    ) -> Result<(), Refusal<OasBad>>
        requires sorted { AreSorted sorted.now }
        requires within { IsReaderWithin bytes.now self.old }
        requires some { HaveRecords self.old.fields }
        requires counted { self.old.names.counted < 2 ^ 63 }
        requires few { AreAtMost (2 ^ 63) self.old.counts }
        ensures reader { (wanted : AList APair) (past : AList Item) → AreSamePairs wanted sorted.now → IsReaderOf bytes.now wanted past self.old
            → HasDimensionsIn (repetition_of (records_in past))
            → OnOk result (IsReaderOf bytes.now wanted (item at (rectangle_of current.now) ∷ past) self.new) }
        ensures within { OnOk result (IsReaderWithin bytes.now self.new) }
        ensures order { (wanted : AList APair) (past : AList Item) → AreSamePairs wanted sorted.now → IsReaderOf bytes.now wanted past self.old
            → OnOk result (is_in_order (records_in past) (rectangle_of current.now) ≡ true) }
        ensures allowed { (unit next : ℕ) (wanted : AList APair) (past : AList Item) → AreSamePairs wanted sorted.now
            → IsReaderOf bytes.now wanted past self.old → HasDimensionsIn (repetition_of (records_in past))
            → OnOk result (IsItemAllowed bytes.now unit wanted past at (rectangle_of current.now) next) }
        ensures refused { (unit next : ℕ) (wanted : AList APair) (past : AList Item) → AreSamePairs wanted sorted.now
            → IsReaderOf bytes.now wanted past self.old → HasDimensionsIn (repetition_of (records_in past))
            → IfFault result (IsRefused bytes.now unit wanted past at (rectangle_of current.now) next) }
    {
        let Some(place) = self.place.after(RECTANGLE) else {
            return Err(Refusal::Fault(OasBad::Order(at)));
        };
        take_rectangle_fields(bytes, &mut self.fields, current);
        match self.take_box(alloc, bytes, sorted, at) {
            Ok(()) => {}
            Err(bad) => return Err(bad),
        }
        self.place = place;
        Ok(())
    }
}

// The layout of a reader that has taken END.
fn finish<'a>(alloc: Global, bytes: &'a [u8], reader: Reader<'a>) -> Result<Layout, Refusal<OasBad>>
    requires spans { HaveSpans bytes.now reader.names }
    requires within { AreDraftsWithin bytes.now reader.drafts }
    ensures ok { (wanted : AList APair) (past : AList Item) (last : Item) → IsReaderOf bytes.now wanted (last ∷ past) reader.entry
        → is_end last.r ≡ true → NoItemEnds past → IfOk result (IsLayoutBehind bytes.now wanted (last ∷ past)) }
    ensures grid { (wanted : AList APair) (past : AList Item) (last : Item) → IsReaderOf bytes.now wanted (last ∷ past) reader.entry
        → is_end last.r ≡ true → NoItemEnds past → IfOk result IsLayoutOnGrid }
    ensures bad { (wanted : AList APair) (past : AList Item) (last : Item) → IsReaderOf bytes.now wanted (last ∷ past) reader.entry
        → is_end last.r ≡ true → NoItemEnds past → IfFault result (IsFaultOfNames bytes.now (last ∷ past)) }
{
    let Reader {
        names,
        drafts,
        counts,
        ..
    } = reader;
    match cells_of(alloc, bytes, &names, drafts) {
        Ok(cells) => Ok(Layout { cells, counts }),
        Err(bad) => Err(bad),
    }
}

// The refusal of bytes at this offset that are no record.
fn lexical_bad(bad: RecordBad, at: usize) -> Refusal<OasBad>
    ensures { result ≡ lexical_refusal bad at }
{
    Refusal::Fault(OasBad::Lexical(at, bad))
}

// The layout of the bytes, which begin as they have to. `sorted` are the wanted pairs.
fn read_records(
    alloc: Global,
    bytes: &[u8],
    unit: u32,
    sorted: &[Pair],
) -> Result<Layout, Refusal<OasBad>>
    requires begins { the_take 13 bytes.now ≡ magic }
    requires sorted { AreSorted sorted.now }
    ensures found { (wanted : AList APair) → AreSamePairs wanted sorted.now → IfOk result (λ layout. IsOasisLayoutOf bytes.now unit wanted layout) }
    ensures grid { IfOk result IsLayoutOnGrid }
    ensures first_fault { (wanted : AList APair) → AreSamePairs wanted sorted.now → IfFault result (IsFirstOasisFault bytes.now unit wanted) }
{
    let mut reader = Reader::new(alloc, bytes);
    let mut at = MAGIC.len();
    'records: loop {
        if let Some((rectangle, next)) = plain_rectangle_at(bytes, at) {
            match reader.take_rectangle(alloc, bytes, sorted, &rectangle, at) {
                Ok(()) => {}
                Err(bad) => return Err(bad),
            }
            at = next;
            continue 'records;
        }
        let (current, next) = match record_at(bytes, at, reader.tables) {
            Ok(found) => found,
            Err(bad) => return Err(lexical_bad(bad, at)),
        };
        let is_last = is_end(&current);
        match reader.take(alloc, bytes, unit, sorted, current, at, next) {
            Ok(()) => {}
            Err(bad) => return Err(bad),
        }
        if is_last {
            return finish(alloc, bytes, reader);
        }
        at = next;
    }
}

/// The layout that the bytes of an OASIS file hold: a cell for each CELL record, with the shapes on the wanted pairs
/// alone. A micrometre has `unit` grid steps, and lengths of the layout are half units. Bytes that hold no layout are
/// refused by their first fault; the first record that is refused decides, and at one record first its bytes, then its
/// order, a value that isn't there, its value rules, its names, the unit and the end of the file. Names by number are
/// looked at after END. `Refusal::NoMemory` may come in place of any answer where memory runs out.
pub fn read_oas(
    alloc: Global,
    bytes: &[u8],
    unit: u32,
    wanted: &[Pair],
) -> Result<Layout, Refusal<OasBad>>
    ensures found { IfOk result (λ layout. IsOasisLayoutOf bytes.now unit wanted.now layout) }
    ensures grid { IfOk result IsLayoutOnGrid }
    ensures read { (layout : ALayout) → IsOasisLayoutOf bytes.now unit wanted.now layout → (result ≡ Ok layout) ⊎ (result ≡ Err NoMemory) }
    ensures first_fault { IfFault result (IsFirstOasisFault bytes.now unit wanted.now) }
    ensures every_fault { (bad : ABad) → IsFirstOasisFault bytes.now unit wanted.now bad → (result ≡ Err (Fault bad)) ⊎ (result ≡ Err NoMemory) }
{
    if !bytes.starts_with(MAGIC) {
        return Err(Refusal::Fault(OasBad::Magic));
    }
    match sorted_pairs(alloc, wanted) {
        Ok(sorted) => read_records(alloc, bytes, unit, sorted.as_slice()),
        Err(_) => Err(Refusal::NoMemory),
    }
}
