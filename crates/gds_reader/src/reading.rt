//! The whole file.
ghost use Rattle.std.specs.Prelude.{◌≡◌, ◌≢◌, ◌⊎◌, ◌+◌, ◌^◌, ◌≤◌, ◌<◌, ◌++◌, ℕ, List as Items, [], ◌∷◌};
ghost use Rattle.std.specs.Prelude.{Some, None, All, IfOk, IfSome, IfNone, OnOk, Err, Ok, length, slice_index};
ghost use Rattle.geo_stream.specs.Refusals.{IfFault};
ghost use Rattle.geo_stream.specs.declared.refusal.Refusal.TheVariants.{Fault, NoMemory as Wanting};
ghost use Rattle.layout_model.specs.Layouts.{IsShapeOnGrid, IsPlacementOnGrid, IsCellOnGrid, IsLayoutOnGrid};
ghost use Rattle.layout_model.specs.Images.{IsOrient};
ghost use Rattle.layout_model.specs.Names.{IsName};
ghost use Rattle.layout_model.specs.declared.pair.Pair.{Pair as APair};
ghost use Rattle.layout_model.specs.declared.cells.Layout.{Layout as ALayout};
ghost use Rattle.gds_record.specs.Reals.{AgreesWithUnit};
ghost use Rattle.gds_record.specs.declared.kinds.Kind.TheVariants.{Xy, EndLib, EndStr, StrName, Units};
ghost use Rattle.gds_record.specs.declared.records.Record.{Record as ARecord};
ghost use Rattle.layout_model.specs.Pairs.{AreSamePairs, AreSorted};
ghost use Rattle.layout_model.specs.Counting.{AreAtMost};
ghost use Rattle.gds_reader.specs.Elements.{IsHeld, IsElementOf, TellsShape, KeepsBy, shapes_by, placements_kept};
ghost use Rattle.gds_reader.specs.Meaning.{wanted_at, cells_at};
ghost use Rattle.gds_reader.specs.Readers.{IsReaderOf, IsStructureOf, IsTaken, IsRefused, IsBadXy, IsStanding};
ghost use Rattle.gds_reader.specs.Readers.{IsTail, cells_kept};
ghost use Rattle.gds_reader.specs.Reading.{IsGdsiiLayoutOf, IsFirstGdsiiFault, framing_fault, unit_in};
ghost use Rattle.gds_reader.specs.Refused.{IsRefusedBy};
ghost use Rattle.gds_reader.specs.Values.{KeepsGdsiiRule, KeepsGdsiiRules, name_in, points_in};
ghost use Rattle.gds_reader.specs.declared.refusing.GdsBad.{GdsBad as ABad};

use crate::counting::count;
use crate::drawing::draw;
use crate::elements::Element;
use crate::naming::{Names, enter, name_of};
use crate::order::Place;
use crate::placing::place;
use crate::pointing::read_points;
use crate::refusing::GdsBad;
use crate::values::broken_rule;
use gds_record::{Framing, Kind, Record, int8, record_at, record_of_kind, unit_agrees};
use geo_stream::{List, NoMemory, Refusal};
use half_grid::Point;
use layout_model::{
    Cell, Counts, Layout, NO_COUNTS, Name, Pair, Placement, Shapes, is_among, sorted_pairs,
};
use std::alloc::Global;
use std::mem::replace;

/// What the open structure has so far.
#[derive(Drop)]
pub(crate) struct Structure {
    /// Its STRNAME.
    pub(crate) named: Option<Record>,
    pub(crate) shapes: Shapes,
    pub(crate) placements: List<Placement>,
}

/// What is kept of the records so far.
#[derive(Drop)]
pub(crate) struct Reader<'a> {
    place: Place,
    element: Element,
    names: Names<'a>,
    structure: Structure,
    cells: List<Cell>,
    counts: Counts,
    // The points of the last XY that was read.
    points: Vec<Point>,
}

fn framing_bad(fault: Framing, at: usize) -> GdsBad
    ensures { result ≡ framing_fault fault at }
{
    match fault {
        Framing::Short => GdsBad::Short(at),
        Framing::Length => GdsBad::Length(at),
        Framing::Kind => GdsBad::Kind(at),
        Framing::Size => GdsBad::Size(at),
    }
}

// Where UNITS has another unit, the bits of its real.
#[inline(always)]
fn other_unit(bytes: &[u8], unit: u32, current: Record) -> Option<u64>
    requires { IsHeld bytes.now current }
    ensures other { IfSome result (λ bits. (current.kind ≡ Units) × (bits ≡ unit_in bytes.now current)
        × ¬ AgreesWithUnit (unit_in bytes.now current) unit) }
    ensures none { IfNone result (current.kind ≡ Units → AgreesWithUnit (unit_in bytes.now current) unit) }
{
    match current.kind {
        Kind::Units => {
            let bits = int8(bytes, current.first + 8);
            if unit_agrees(bits, unit) {
                None
            } else {
                Some(bits)
            }
        }
        _ => None,
    }
}

// At the XY of a boundary or a path, whether its pair is wanted.
#[inline(always)]
fn wanted_shape(sorted: &[Pair], element: &Element, current: Record) -> Option<bool>
    requires { AreSorted sorted.now }
    ensures wanted { (bytes : Items ℕ) (past : Items ARecord) (wanted : Items APair)
        → IsElementOf bytes past element.now → AreSamePairs wanted sorted.now
        → result ≡ wanted_at bytes wanted past current }
    ensures tells { current.kind ≡ Xy → TellsShape result element.now }
{
    if current.kind != Kind::Xy {
        return None;
    }
    match element.kind {
        Some(Kind::Boundary | Kind::Path) => Some(is_among(sorted, element.pair)),
        _ => None,
    }
}

// Takes the XY of an element, which is at this offset. `drawn` says of a shape whether its pair is wanted.
#[inline(always)]
fn take_points(
    alloc: Global,
    bytes: &[u8],
    element: &Element,
    current: Record,
    at: usize,
    drawn: Option<bool>,
    points: &mut Vec<Point>,
    structure: &mut Structure,
) -> Result<(), Refusal<GdsBad>>
    requires held { IsHeld bytes.now current }
    requires kind { current.kind ≡ Xy }
    requires tells { TellsShape drawn element.now }
    requires target_held { IfSome element.now.target (IsHeld bytes.now) }
    requires target_named { IfSome element.now.target (λ r. IsName (name_in bytes.now r)) }
    requires orient { IsOrient element.now.orient }
    ensures named { structure.new.named ≡ structure.old.named }
    ensures shapes { OnOk result (structure.new.shapes
        ≡ structure.old.shapes ++ shapes_by drawn element.now (points_in bytes.now current)) }
    ensures placements { OnOk result (structure.new.placements
        ≡ structure.old.placements
        ++ placements_kept element.now.kind bytes.now element.now (points_in bytes.now current)) }
    ensures shapes_grid { All IsShapeOnGrid structure.old.shapes
        → OnOk result (All IsShapeOnGrid structure.new.shapes) }
    ensures placements_grid { All IsPlacementOnGrid structure.old.placements
        → OnOk result (All IsPlacementOnGrid structure.new.placements) }
    ensures kept { OnOk result ((rule : ℕ) → KeepsBy drawn element.now (points_in bytes.now current) rule) }
    ensures broken { IfFault result (IsRefusedBy (KeepsBy drawn element.now (points_in bytes.now current)) at) }
{
    match drawn {
        Some(true) => {
            read_points(bytes, current, points)?;
            draw(alloc, element, points.as_slice(), at, &mut structure.shapes)
        }
        Some(false) => Ok(()),
        None => {
            if !element.is_reference() {
                return Ok(());
            }
            read_points(bytes, current, points)?;
            place(
                alloc,
                bytes,
                element,
                points.as_slice(),
                at,
                &mut structure.placements,
            )
        }
    }
}

// Takes a record that isn't ENDSTR into the open structure.
#[inline(always)]
fn take_within(
    alloc: Global,
    bytes: &[u8],
    element: &Element,
    current: Record,
    at: usize,
    drawn: Option<bool>,
    points: &mut Vec<Point>,
    structure: &mut Structure,
) -> Result<(), Refusal<GdsBad>>
    requires held { IsHeld bytes.now current }
    requires kind { current.kind ≢ EndStr }
    requires tells { current.kind ≡ Xy → TellsShape drawn element.now }
    requires target_held { IfSome element.now.target (IsHeld bytes.now) }
    requires target_named { IfSome element.now.target (λ r. IsName (name_in bytes.now r)) }
    requires orient { IsOrient element.now.orient }
    requires name { current.kind ≡ StrName → IsName (name_in bytes.now current) }
    ensures structure { (past : Items ARecord) (wanted : Items APair) → IsElementOf bytes.now past element.now
        → drawn ≡ wanted_at bytes.now wanted past current → IsStructureOf bytes.now wanted past structure.old
        → OnOk result (IsStructureOf bytes.now wanted (current ∷ past) structure.new) }
    ensures kept { (past : Items ARecord) (wanted : Items APair) → IsElementOf bytes.now past element.now
        → drawn ≡ wanted_at bytes.now wanted past current
        → OnOk result (current.kind ≡ Xy → KeepsGdsiiRules bytes.now wanted past current) }
    ensures broken { (past : Items ARecord) (wanted : Items APair) → IsElementOf bytes.now past element.now
        → drawn ≡ wanted_at bytes.now wanted past current
        → IfFault result (IsRefusedBy (KeepsGdsiiRule bytes.now wanted past current) at) }
{
    match current.kind {
        Kind::Xy => take_points(alloc, bytes, element, current, at, drawn, points, structure),
        Kind::StrName => {
            structure.named = Some(current);
            Ok(())
        }
        _ => Ok(()),
    }
}

// Ends the open structure.
fn close(
    alloc: Global,
    bytes: &[u8],
    structure: &mut Structure,
    cells: &mut List<Cell>,
) -> Result<(), NoMemory>
    requires held { IfSome structure.old.named (IsHeld bytes.now) }
    requires valid { IfSome structure.old.named (λ r. IsName (name_in bytes.now r)) }
    ensures named { OnOk result (structure.new.named ≡ None) }
    ensures shapes { OnOk result (structure.new.shapes ≡ []) }
    ensures placements { OnOk result (structure.new.placements ≡ []) }
    ensures cells { OnOk result (cells.new ≡ cells.old
        ++ cells_kept bytes.now structure.old.named structure.old.shapes structure.old.placements) }
    ensures grid { All IsCellOnGrid cells.old → All IsShapeOnGrid structure.old.shapes
        → All IsPlacementOnGrid structure.old.placements → OnOk result (All IsCellOnGrid cells.new) }
{
    let shapes = replace(&mut structure.shapes, Shapes::new(alloc));
    let placements = replace(&mut structure.placements, List::new(alloc));
    let Some(named) = structure.named else {
        return Ok(());
    };
    structure.named = None;
    match Name::new(alloc, name_of(bytes, named)) {
        Ok(name) => {
            cells.push(Cell {
                name,
                shapes,
                placements,
            })?;
            Ok(())
        }
        Err(_) => Err(NoMemory),
    }
}

// Takes a record into the open structure, and the structure into the cells where it ends.
#[inline(always)]
fn build(
    alloc: Global,
    bytes: &[u8],
    element: &Element,
    current: Record,
    at: usize,
    drawn: Option<bool>,
    points: &mut Vec<Point>,
    structure: &mut Structure,
    cells: &mut List<Cell>,
) -> Result<(), Refusal<GdsBad>>
    requires held { IsHeld bytes.now current }
    requires tells { current.kind ≡ Xy → TellsShape drawn element.now }
    requires target_held { IfSome element.now.target (IsHeld bytes.now) }
    requires target_named { IfSome element.now.target (λ r. IsName (name_in bytes.now r)) }
    requires orient { IsOrient element.now.orient }
    requires name { current.kind ≡ StrName → IsName (name_in bytes.now current) }
    requires named_held { IfSome structure.old.named (IsHeld bytes.now) }
    requires named_valid { IfSome structure.old.named (λ r. IsName (name_in bytes.now r)) }
    ensures structure { (past : Items ARecord) (wanted : Items APair) → IsElementOf bytes.now past element.now
        → drawn ≡ wanted_at bytes.now wanted past current → IsStructureOf bytes.now wanted past structure.old
        → OnOk result (IsStructureOf bytes.now wanted (current ∷ past) structure.new) }
    ensures cells { (past : Items ARecord) (wanted : Items APair) → IsStructureOf bytes.now wanted past structure.old
        → OnOk result (cells.new ≡ cells.old ++ cells_at bytes.now wanted past current) }
    ensures grid { All IsCellOnGrid cells.old → All IsShapeOnGrid structure.old.shapes
        → All IsPlacementOnGrid structure.old.placements → OnOk result (All IsCellOnGrid cells.new) }
    ensures kept { (past : Items ARecord) (wanted : Items APair) → IsElementOf bytes.now past element.now
        → drawn ≡ wanted_at bytes.now wanted past current
        → OnOk result (current.kind ≡ Xy → KeepsGdsiiRules bytes.now wanted past current) }
    ensures broken { (past : Items ARecord) (wanted : Items APair) → IsElementOf bytes.now past element.now
        → drawn ≡ wanted_at bytes.now wanted past current
        → IfFault result (IsRefusedBy (KeepsGdsiiRule bytes.now wanted past current) at) }
{
    if current.kind == Kind::EndStr {
        close(alloc, bytes, structure, cells)?;
        return Ok(());
    }
    take_within(alloc, bytes, element, current, at, drawn, points, structure)
}

impl<'a> Reader<'a> {
    fn new(alloc: Global, file: &[u8]) -> Reader<'a>
        ensures { (bytes : Items ℕ) (wanted : Items APair) → IsReaderOf bytes wanted [] result }
    {
        Reader {
            place: Place::Header,
            element: Element::new(None),
            names: Names::new(alloc, file),
            structure: Structure {
                named: None,
                shapes: Shapes::new(alloc),
                placements: List::new(alloc),
            },
            cells: List::new(alloc),
            counts: NO_COUNTS,
            points: Vec::new(alloc),
        }
    }

    // Takes the record at this offset. Only the points of an XY take memory before their rules are looked at.
    #[inline(always)]
    fn take(
        &mut self,
        alloc: Global,
        bytes: &'a [u8],
        unit: u32,
        sorted: &[Pair],
        current: Record,
        at: usize,
    ) -> Result<(), Refusal<GdsBad>>
        requires held { IsHeld bytes.now current }
        requires at { current.first ≡ at + 4 }
        requires sorted { AreSorted sorted.now }
        requires few { AreAtMost (2 ^ 63) self.old.counts }
        requires named_held { IfSome self.old.structure.named (IsHeld bytes.now) }
        requires named_valid { IfSome self.old.structure.named (λ r. IsName (name_in bytes.now r)) }
        requires target_held { IfSome self.old.element.target (IsHeld bytes.now) }
        requires target_named { IfSome self.old.element.target (λ r. IsName (name_in bytes.now r)) }
        requires orient { IsOrient self.old.element.orient }
        ensures reader { (past : Items ARecord) (wanted : Items APair) → AreSamePairs wanted sorted.now
            → IsReaderOf bytes.now wanted past self.old
            → OnOk result (IsReaderOf bytes.now wanted (current ∷ past) self.new) }
        ensures taken { (past : Items ARecord) (wanted : Items APair) → AreSamePairs wanted sorted.now
            → IsReaderOf bytes.now wanted past self.old → OnOk result (IsTaken bytes.now unit wanted past current) }
        ensures refused { (past : Items ARecord) (wanted : Items APair) → AreSamePairs wanted sorted.now
            → IsReaderOf bytes.now wanted past self.old
            → IfFault result (IsRefused bytes.now unit wanted past current at) }
        ensures memory { (past : Items ARecord) (wanted : Items APair) → AreSamePairs wanted sorted.now
            → IsReaderOf bytes.now wanted past self.old → result ≡ Err Wanting
            → (bad : ABad) → IsRefused bytes.now unit wanted past current at bad → IsBadXy past current }
    {
        let Some(place) = self.place.after(current.kind) else {
            return Err(Refusal::Fault(GdsBad::Order(at)));
        };
        match broken_rule(bytes, sorted, &self.element, current) {
            Some(rule) => return Err(Refusal::Fault(GdsBad::Value(at, rule))),
            None => {}
        }
        match other_unit(bytes, unit, current) {
            Some(bits) => return Err(Refusal::Fault(GdsBad::Unit(bits))),
            None => {}
        }
        match enter(&mut self.names, bytes, current, at) {
            Err(refusal) => return Err(refusal),
            Ok(()) => {}
        }
        let drawn = wanted_shape(sorted, &self.element, current);
        let built = build(
            alloc,
            bytes,
            &self.element,
            current,
            at,
            drawn,
            &mut self.points,
            &mut self.structure,
            &mut self.cells,
        );
        match built {
            Err(refusal) => return Err(refusal),
            Ok(()) => {}
        }
        count(&mut self.counts, current, drawn);
        self.element.take(bytes, current);
        self.place = place;
        Ok(())
    }

    // Takes the record at this offset where one of this kind is there, and gives the offset after it; else this offset.
    #[inline(always)]
    fn take_kind(
        &mut self,
        alloc: Global,
        bytes: &'a [u8],
        unit: u32,
        sorted: &[Pair],
        at: usize,
        kind: Kind,
    ) -> Result<usize, Refusal<GdsBad>>
        requires sorted { AreSorted sorted.now }
        requires standing { IsStanding bytes.now unit sorted.now at self.old }
        requires goes_on { kind ≢ EndLib }
        ensures standing { IfOk result (λ next. IsStanding bytes.now unit sorted.now next self.new) }
        ensures onward { IfOk result (λ next. at ≤ next) }
        ensures first_fault { (wanted : Items APair) → AreSamePairs wanted sorted.now
            → IfFault result (IsFirstGdsiiFault bytes.now unit wanted) }
    {
        let Some(current) = record_of_kind(bytes, at, kind) else {
            return Ok(at);
        };
        match self.take(alloc, bytes, unit, sorted, current, at) {
            Ok(()) => Ok(current.next),
            Err(refusal) => Err(refusal),
        }
    }

    // Takes the points of an element and its end, as far as they are at this offset. Gives the offset after them.
    #[inline(always)]
    fn take_end(
        &mut self,
        alloc: Global,
        bytes: &'a [u8],
        unit: u32,
        sorted: &[Pair],
        at: usize,
    ) -> Result<usize, Refusal<GdsBad>>
        requires sorted { AreSorted sorted.now }
        requires standing { IsStanding bytes.now unit sorted.now at self.old }
        ensures standing { IfOk result (λ next. IsStanding bytes.now unit sorted.now next self.new) }
        ensures onward { IfOk result (λ next. at ≤ next) }
        ensures first_fault { (wanted : Items APair) → AreSamePairs wanted sorted.now
            → IfFault result (IsFirstGdsiiFault bytes.now unit wanted) }
    {
        let end = self.take_kind(alloc, bytes, unit, sorted, at, Kind::Xy)?;
        if end == at {
            return Ok(end);
        }
        self.take_kind(alloc, bytes, unit, sorted, end, Kind::EndEl)
    }

    // Takes the records of a boundary from this offset on, as far as they come in the commonest order. Gives the offset
    // after them.
    #[inline(always)]
    fn take_boundary(
        &mut self,
        alloc: Global,
        bytes: &'a [u8],
        unit: u32,
        sorted: &[Pair],
        at: usize,
    ) -> Result<usize, Refusal<GdsBad>>
        requires sorted { AreSorted sorted.now }
        requires standing { IsStanding bytes.now unit sorted.now at self.old }
        ensures standing { IfOk result (λ next. IsStanding bytes.now unit sorted.now next self.new) }
        ensures onward { IfOk result (λ next. at ≤ next) }
        ensures first_fault { (wanted : Items APair) → AreSamePairs wanted sorted.now
            → IfFault result (IsFirstGdsiiFault bytes.now unit wanted) }
    {
        let layer = self.take_kind(alloc, bytes, unit, sorted, at, Kind::Boundary)?;
        if layer == at {
            return Ok(layer);
        }
        let datatype = self.take_kind(alloc, bytes, unit, sorted, layer, Kind::Layer)?;
        if datatype == layer {
            return Ok(datatype);
        }
        let points = self.take_kind(alloc, bytes, unit, sorted, datatype, Kind::DataType)?;
        if points == datatype {
            return Ok(points);
        }
        self.take_end(alloc, bytes, unit, sorted, points)
    }

    // Takes boundaries from this offset on, one after another. Gives the offset after them.
    fn take_boundaries(
        &mut self,
        alloc: Global,
        bytes: &'a [u8],
        unit: u32,
        sorted: &[Pair],
        at: usize,
    ) -> Result<usize, Refusal<GdsBad>>
        requires sorted { AreSorted sorted.now }
        requires standing { IsStanding bytes.now unit sorted.now at self.old }
        ensures standing { IfOk result (λ next. IsStanding bytes.now unit sorted.now next self.new) }
        ensures onward { IfOk result (λ next. at ≤ next) }
        ensures first_fault { (wanted : Items APair) → AreSamePairs wanted sorted.now
            → IfFault result (IsFirstGdsiiFault bytes.now unit wanted) }
    {
        let mut from = at;
        'boundaries: loop {
            let next = self.take_boundary(alloc, bytes, unit, sorted, from)?;
            if next == from {
                return Ok(next);
            }
            from = next;
        }
    }
}

// The first byte from `at` on that isn't 0.
fn first_nonzero(bytes: &[u8], at: usize) -> Option<usize>
    requires { at ≤ length bytes.now }
    ensures within { IfSome result (λ k. (at ≤ k) × (k < length bytes.now)) }
    ensures nonzero { IfSome result (λ k. slice_index bytes.now k ≢ 0) }
    ensures first { IfSome result (λ k. (i : ℕ) → at ≤ i → i < k → slice_index bytes.now i ≡ 0) }
    ensures none { IfNone result ((i : ℕ) → at ≤ i → i < length bytes.now → slice_index bytes.now i ≡ 0) }
{
    for index in at..bytes.len() {
        if bytes[index] != 0 {
            return Some(index);
        }
    }
    None
}

// The layout of a reader that has taken the end of the library, which ends at this offset.
fn finish(bytes: &[u8], at: usize, reader: Reader<'_>) -> Result<Layout, Refusal<GdsBad>>
    requires { at ≤ length bytes.now }
    ensures cells { IfOk result (λ layout. layout.cells ≡ reader.entry.cells) }
    ensures counts { IfOk result (λ layout. layout.counts ≡ reader.entry.counts) }
    ensures blank { IfOk result (λ _. (k : ℕ) → at ≤ k → k < length bytes.now → slice_index bytes.now k ≡ 0) }
    ensures tail { IfFault result (IsTail bytes.now at) }
{
    match first_nonzero(bytes, at) {
        Some(tail) => Err(Refusal::Fault(GdsBad::Tail(tail))),
        None => Ok(Layout {
            cells: reader.cells,
            counts: reader.counts,
        }),
    }
}

// The layout of the bytes. `sorted` are the wanted pairs.
fn read_records(
    alloc: Global,
    bytes: &[u8],
    unit: u32,
    sorted: &[Pair],
) -> Result<Layout, Refusal<GdsBad>>
    requires { AreSorted sorted.now }
    ensures found { (wanted : Items APair) → AreSamePairs wanted sorted.now
        → IfOk result (λ layout. IsGdsiiLayoutOf bytes.now unit wanted layout) }
    ensures grid { IfOk result IsLayoutOnGrid }
    ensures first_fault { (wanted : Items APair) → AreSamePairs wanted sorted.now
        → IfFault result (IsFirstGdsiiFault bytes.now unit wanted) }
{
    let mut reader = Reader::new(alloc, bytes);
    let mut at = 0;
    'records: loop {
        let from = match reader.take_boundaries(alloc, bytes, unit, sorted, at) {
            Ok(from) => from,
            Err(refusal) => return Err(refusal),
        };
        let current = match record_at(bytes, from) {
            Ok(current) => current,
            Err(fault) => return Err(Refusal::Fault(framing_bad(fault, from))),
        };
        match reader.take(alloc, bytes, unit, sorted, current, from) {
            Ok(()) => {}
            Err(refusal) => return Err(refusal),
        }
        at = current.next;
        if current.kind == Kind::EndLib {
            return finish(bytes, at, reader);
        }
    }
}

/// The layout that the bytes of a GDSII stream file hold: a cell for each structure, with the shapes on
/// the wanted pairs alone. A micrometre has `unit` database units, and lengths of the layout are half
/// units. Bytes that hold no layout are refused by their first fault; the first record that is refused
/// decides, and at one record first its framing, then its order, then its value rules, then the unit or
/// the name. NoMemory may come in place of any answer where memory runs out.
pub fn read_gds(
    alloc: Global,
    bytes: &[u8],
    unit: u32,
    wanted: &[Pair],
) -> Result<Layout, Refusal<GdsBad>>
    ensures found { IfOk result (λ layout. IsGdsiiLayoutOf bytes.now unit wanted.now layout) }
    ensures grid { IfOk result IsLayoutOnGrid }
    ensures read { (layout : ALayout) → IsGdsiiLayoutOf bytes.now unit wanted.now layout
        → (result ≡ Ok layout) ⊎ (result ≡ Err Wanting) }
    ensures first_fault { IfFault result (IsFirstGdsiiFault bytes.now unit wanted.now) }
    ensures every_fault { (bad : ABad) → IsFirstGdsiiFault bytes.now unit wanted.now bad
        → (result ≡ Err (Fault bad)) ⊎ (result ≡ Err Wanting) }
{
    let sorted = sorted_pairs(alloc, wanted)?;
    read_records(alloc, bytes, unit, sorted.as_slice())
}
