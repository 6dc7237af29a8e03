//! The rules of values that need no memory.
ghost use Rattle.std.specs.Prelude.{◌≡◌, ◌↔◌, ◌^◌, ◌⊎◌, ◌≤◌, IsTrue, IfSome, IfNone, length};
ghost use Rattle.oas_fields.specs.Values.{IsPlaceWithin, ArePlacesWithin};
ghost use Rattle.oas_reader.specs.Items.{text_in};
ghost use Rattle.oas_reader.specs.Kept.{KeepsVersionBy, KeepsSchemeBy, HasVersion};
ghost use Rattle.oas_reader.specs.Rules.{version as the_version};

use crate::bodies::Body;
use oas_fields::{Fields, Place};

/// The rule of positions.
pub(crate) const POSITION_RULE: u8 = 1;

/// Positions, sizes, vertices and offsets aren't farther from 0.
const FAR: i128 = 1 << 40;

/// Whether a position is near.
#[inline(always)]
pub(crate) fn is_near(place: Place) -> bool
    ensures { IsTrue result ↔ IsPlaceWithin (2 ^ 40) place }
{
    if place.x < -FAR || place.x > FAR {
        return false;
    }
    if place.y < -FAR || place.y > FAR {
        return false;
    }
    true
}

/// Whether all three positions are near.
#[inline(always)]
pub(crate) fn positions_are_near(fields: &Fields<'_>) -> bool
    ensures { IsTrue result ↔ ArePlacesWithin (2 ^ 40) fields.now }
{
    if !is_near(fields.geometry) {
        return false;
    }
    if !is_near(fields.placement) {
        return false;
    }
    is_near(fields.text)
}

// Whether a START of this version is one that is read.
fn is_version(bytes: &[u8], version: (usize, usize), offset_flag: u64) -> bool
    requires ordered { version.0 ≤ version.1 }
    requires within { version.1 ≤ length bytes.now }
    ensures { IsTrue result ↔ ((text_in bytes.now version ≡ the_version) × (offset_flag ≤ 1)) }
{
    if &bytes[version.0..version.1] != b"1.0".as_slice() {
        return false;
    }
    offset_flag <= 1
}

/// The rule of START or END that is broken, if one is.
#[inline(always)]
pub(crate) fn broken_by_file(bytes: &[u8], body: Body) -> Option<u8>
    requires { HasVersion (length bytes.now) body }
    ensures some { IfSome result (λ rule. ((rule ≡ 9) × (KeepsVersionBy bytes.now body → ⊥)) ⊎ ((rule ≡ 10) × (KeepsSchemeBy body → ⊥))) }
    ensures none { IfNone result (KeepsVersionBy bytes.now body × KeepsSchemeBy body) }
{
    match body {
        Body::Start {
            version,
            offset_flag,
            ..
        } => {
            if is_version(bytes, version, offset_flag) {
                return None;
            }
            Some(9)
        }
        Body::End { scheme } => {
            if scheme <= 2 {
                return None;
            }
            Some(10)
        }
        _ => None,
    }
}
