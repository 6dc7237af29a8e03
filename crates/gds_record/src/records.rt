//! The record at an offset, or what is wrong there.

ghost use Rattle.std.specs.Prelude.{◌≡◌, ◌<◌, ◌≤◌, ◌-◌, ◌↔◌, Some, length, IfOk};
ghost use Rattle.gds_record.specs.Faults.{IsFaultAt};
ghost use Rattle.gds_record.specs.Framing.{IsRecordAt};
ghost use Rattle.gds_record.specs.Heads.{content_of, IsLengthAllowed};

use crate::kinds::{Kind, content_length, head_code, is_allowed, kind_of};
use crate::numbers::unsigned2;

/// The bytes of a record before its content: its length, record type and data type.
const HEAD: usize = 4;

/// A whole record of a file. Its content is the bytes from `first` up to `next`.
#[derive(Clone, Copy, Debug, PartialEq, Eq)]
pub struct Record {
    /// What the record holds.
    pub kind: Kind,
    /// The offset of its content.
    pub first: usize,
    /// The offset after it, where the next record begins.
    pub next: usize,
}

/// Why no record is at an offset.
#[derive(Clone, Copy, Debug, PartialEq, Eq)]
pub enum Framing {
    /// Fewer bytes are left than a record's head, or than the record's length.
    Short,
    /// The length is odd or below four.
    Length,
    /// No kind of record has this record type and data type.
    Kind,
    /// The content hasn't the length of its kind.
    Size,
}

/// The record at an offset, or the first cause why none is there, in the order Short (fewer than
/// four bytes), Length, Short (fewer bytes than the length), Kind, Size.
#[inline(always)]
pub fn record_at(bytes: &[u8], at: usize) -> Result<Record, Framing>
    requires { at ≤ length bytes.now }
    ensures found { (r : Record) → (result ≡ Ok r) ↔ IsRecordAt bytes.now at r }
    ensures fault { (f : Framing) → (result ≡ Err f) ↔ IsFaultAt bytes.now at f }

    // So a loop over the records ends, and the numbers of a content can be read.
    ensures onward { IfOk result (λ r. at < r.next) }
    ensures within { IfOk result (λ r. r.next ≤ length bytes.now) }
    ensures behind_head { IfOk result (λ r. r.first ≤ r.next) }
    ensures content { IfOk result (λ r. IsLengthAllowed (content_of r.kind) (r.next - r.first)) }
{
    let left = bytes.len() - at;
    if left < HEAD {
        return Err(Framing::Short);
    }
    let length = usize::from(unsigned2(bytes, at));
    if length < HEAD || length % 2 == 1 {
        return Err(Framing::Length);
    }
    if left < length {
        return Err(Framing::Short);
    }
    let Some(kind) = kind_of(unsigned2(bytes, at + 2)) else {
        return Err(Framing::Kind);
    };
    if !is_allowed(content_length(kind), length - HEAD) {
        return Err(Framing::Size);
    }
    Ok(Record {
        kind,
        first: at + HEAD,
        next: at + length,
    })
}

/// The record at an offset where one of this kind is there. It costs less than `record_at` where the kind is known when
/// the program is built.
#[inline(always)]
pub fn record_of_kind(bytes: &[u8], at: usize, kind: Kind) -> Option<Record>
    requires { at ≤ length bytes.now }
    ensures { (r : Record) → (result ≡ Some r) ↔ (IsRecordAt bytes.now at r × (r.kind ≡ kind)) }
{
    if bytes.len() - at < HEAD {
        return None;
    }
    if unsigned2(bytes, at + 2) != head_code(kind) {
        return None;
    }
    // Where one length is allowed, no other test of it is left.
    let length = usize::from(unsigned2(bytes, at));
    if length < HEAD || !is_allowed(content_length(kind), length - HEAD) {
        return None;
    }
    match record_at(bytes, at) {
        Ok(found) => Some(found),
        Err(_) => None,
    }
}
