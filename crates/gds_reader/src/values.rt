//! The value rules of single records.
ghost use Rattle.std.specs.Prelude.{◌≡◌, ◌≢◌, ◌+◌, ◌↔◌, ◌⊎◌, List, Some, None, bit_and, if◌then◌else◌};
ghost use Rattle.std.specs.Prelude.{IsTrue, IfSome, IfNone};
ghost use Rattle.std.specs.List.{list_any};
ghost use Rattle.layout_model.specs.Names.{IsName};
ghost use Rattle.layout_model.specs.Pairs.{same_pair, AreSamePairs, AreSorted};
ghost use Rattle.layout_model.specs.declared.pair.Pair.{Pair as APair};
ghost use Rattle.gds_record.specs.declared.kinds.Kind.TheVariants.{Xy, Path, StrName};
ghost use Rattle.gds_record.specs.declared.records.Record.{Record as ARecord};
ghost use Rattle.gds_reader.specs.Elements.{IsHeld, IsElementOf};
ghost use Rattle.gds_reader.specs.Values.{name_in, IsCount, IsLowestBrokenByRecord, KeepsGdsiiRules};

use crate::elements::{Element, factor_of, quarter_turns};
use crate::naming::name_of;
use gds_record::{Kind, Record, int8, unsigned2};
use layout_model::{Pair, is_among, is_name};

fn is_count(number: u16) -> bool
    ensures { IsTrue result ↔ IsCount number }
{
    number >= 1 && number <= 32767
}

fn are_counts(columns: u16, rows: u16) -> bool
    ensures { IsTrue result ↔ (IsCount columns × IsCount rows) }
{
    is_count(columns) && is_count(rows)
}

// Whether a path may have this type.
fn is_path_type(number: u16) -> bool
    ensures { IsTrue result ↔ ((number ≡ 0) ⊎ (number ≡ 2) ⊎ (number ≡ 4)) }
{
    number == 0 || number == 2 || number == 4
}

// Whether STRANS has no absolute magnification and no absolute angle.
fn is_relative(bits: u16) -> bool
    ensures { IsTrue result ↔ (bit_and bits 0x0006 ≡ 0) }
{
    bits & 0x0006 == 0
}

// The rule unless it is kept.
fn unless(kept: bool, rule: u8) -> Option<u8>
    ensures { result ≡ (if kept then None else Some rule) }
{
    if kept { None } else { Some(rule) }
}

// The rule unless it is kept or isn't asked for.
fn unless_asked(asked: bool, kept: bool, rule: u8) -> Option<u8>
    ensures { result ≡ (if asked then (if kept then None else Some rule) else None) }
{
    if asked { unless(kept, rule) } else { None }
}

// The rule of PATHTYPE, for paths on wanted pairs.
fn path_type_rule(sorted: &[Pair], element: &Element, number: u16) -> Option<u8>
    requires { AreSorted sorted.now }
    ensures broken { IfSome result (λ rule. (rule ≡ 13) × (element.now.kind ≡ Some Path)
        × IsTrue (list_any (same_pair element.now.pair) sorted.now)
        × ¬ ((number ≡ 0) ⊎ (number ≡ 2) ⊎ (number ≡ 4))) }
    ensures kept { IfNone result (element.now.kind ≡ Some Path
        → IsTrue (list_any (same_pair element.now.pair) sorted.now)
        → (number ≡ 0) ⊎ (number ≡ 2) ⊎ (number ≡ 4)) }
{
    if element.kind != Some(Kind::Path) {
        return None;
    }
    if is_path_type(number) {
        return None;
    }
    if is_among(sorted, element.pair) {
        return Some(13);
    }
    None
}

// The value rule that the record breaks, the points of XY aside. `sorted` are the wanted pairs.
#[inline(always)]
pub(crate) fn broken_rule(
    bytes: &[u8],
    sorted: &[Pair],
    element: &Element,
    current: Record,
) -> Option<u8>
    requires held { IsHeld bytes.now current }
    requires sorted { AreSorted sorted.now }
    ensures broken { (past : List ARecord) (wanted : List APair) → IsElementOf bytes.now past element.now
        → AreSamePairs wanted sorted.now → IfSome result (λ rule. IsLowestBrokenByRecord bytes.now wanted past current rule) }
    ensures kept { (past : List ARecord) (wanted : List APair) → IsElementOf bytes.now past element.now
        → AreSamePairs wanted sorted.now → current.kind ≢ Xy
        → IfNone result (KeepsGdsiiRules bytes.now wanted past current) }
    ensures name { current.kind ≡ StrName → IfNone result (IsName (name_in bytes.now current)) }
{
    let first = current.first;
    let is_reference = element.is_reference();
    match current.kind {
        Kind::Format => unless(unsigned2(bytes, first) == 0, 1),
        Kind::StrName => unless(is_name(name_of(bytes, current)), 2),
        Kind::Sname => unless(is_name(name_of(bytes, current)), 2),
        Kind::Strans => unless_asked(is_reference, is_relative(unsigned2(bytes, first)), 3),
        Kind::Mag => unless_asked(is_reference, factor_of(int8(bytes, first)).is_some(), 4),
        Kind::Angle => unless_asked(is_reference, quarter_turns(int8(bytes, first)).is_some(), 5),
        Kind::ColRow => {
            let columns = unsigned2(bytes, first);
            unless(are_counts(columns, unsigned2(bytes, first + 2)), 6)
        }
        Kind::PathType => path_type_rule(sorted, element, unsigned2(bytes, first)),
        _ => None,
    }
}
