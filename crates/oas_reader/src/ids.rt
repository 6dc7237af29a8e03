//! The ids of records.
ghost use Rattle.std.specs.Prelude.{◌≡◌, ◌<◌, if◌then◌else◌};
ghost use Rattle.oas_record.specs.Records.{id_of, name_id, numbered, cell_id, placement_id, shape_id, trapezoid_id};
ghost use Rattle.oas_reader.specs.Items.{is_end};

use oas_record::{Called, NameKind, OasRecord, ShapeKind, TrapezoidDeltas, Turn};

fn name_id(kind: NameKind) -> u8
    ensures value { result ≡ name_id kind }
    ensures small { result < 10 }
{
    match kind {
        NameKind::Cell => 3,
        NameKind::Text => 5,
        NameKind::Property => 7,
        NameKind::PropertyString => 9,
    }
}

// The id of a record that may have a number at its end.
fn numbered(id: u8, number: Option<u64>) -> u8
    requires { id < 34 }
    ensures { result ≡ numbered id number }
{
    match number {
        None => id,
        Some(_) => id + 1,
    }
}

fn layer_name_id(of_texts: bool) -> u8
    ensures { result ≡ (if of_texts then 12 else 11) }
{
    if of_texts {
        return 12;
    }
    11
}

fn mode_id(is_relative: bool) -> u8
    ensures { result ≡ (if is_relative then 16 else 15) }
{
    if is_relative {
        return 16;
    }
    15
}

fn cell_id(name: Called) -> u8
    ensures { result ≡ cell_id name }
{
    match name {
        Called::Number(_) => 13,
        Called::Text(..) => 14,
    }
}

fn placement_id(turn: Option<Turn>) -> u8
    ensures { result ≡ placement_id turn }
{
    match turn {
        None => 17,
        Some(_) => 18,
    }
}

fn trapezoid_id(deltas: TrapezoidDeltas) -> u8
    ensures { result ≡ trapezoid_id deltas }
{
    match deltas {
        TrapezoidDeltas::Both(..) => 23,
        TrapezoidDeltas::A(_) => 24,
        TrapezoidDeltas::B(_) => 25,
    }
}

fn shape_id(kind: &ShapeKind<'_>) -> u8
    ensures { result ≡ shape_id kind.now }
{
    match kind {
        ShapeKind::Rectangle { .. } => 20,
        ShapeKind::Polygon { .. } => 21,
        ShapeKind::Path { .. } => 22,
        ShapeKind::Trapezoid { deltas, .. } => trapezoid_id(*deltas),
        ShapeKind::Ctrapezoid { .. } => 26,
        ShapeKind::Circle { .. } => 27,
        ShapeKind::XGeometry { .. } => 33,
    }
}

/// The id of the record.
pub(crate) fn id_of(current: &OasRecord<'_>) -> u8
    ensures { result ≡ id_of current.now }
{
    match current {
        OasRecord::Pad => 0,
        OasRecord::Start { .. } => 1,
        OasRecord::End { .. } => 2,
        OasRecord::Name { kind, number, .. } => numbered(name_id(*kind), *number),
        OasRecord::LayerName { of_texts, .. } => layer_name_id(*of_texts),
        OasRecord::Cell(name) => cell_id(*name),
        OasRecord::Mode { is_relative } => mode_id(*is_relative),
        OasRecord::Placement { turn, .. } => placement_id(*turn),
        OasRecord::Text { .. } => 19,
        OasRecord::Shape { kind, .. } => shape_id(kind),
        OasRecord::Property { .. } => 28,
        OasRecord::LastProperty => 29,
        OasRecord::XName { number, .. } => numbered(30, *number),
        OasRecord::XElement { .. } => 32,
    }
}

/// Whether the record is END.
pub(crate) fn is_end(current: &OasRecord<'_>) -> bool
    ensures { result ≡ is_end current.now }
{
    matches!(current, OasRecord::End { .. })
}
