//! What is kept of the element that is being read.
ghost use Rattle.std.specs.Prelude.{◌≡◌, ◌≤◌, ◌<◌, ◌↔◌, ◌/◌, ◌⊎◌, Some, IsSome, IfSome, IsTrue, List, ◌∷◌};
ghost use Rattle.gds_record.specs.Reals.{sign_of};
ghost use Rattle.gds_record.specs.declared.kinds.Kind.TheVariants.{Sref, Aref};
ghost use Rattle.gds_record.specs.declared.records.Record.{Record as ARecord};
ghost use Rattle.gds_reader.specs.Elements.{IsHeld, IsElementOf, new_element};
ghost use Rattle.gds_reader.specs.Values.{magnitude_of, IsGdsiiFactor, IsGdsiiAngle, KeepsGdsiiRules};
ghost use Rattle.layout_model.specs.Images.{IsOrient};
ghost use Rattle.layout_model.specs.Turns.{turns_by};
ghost use Rattle.layout_model.specs.declared.pair.Pair.{Pair as APair};

use gds_record::{Kind, Record, int4, int8, real_whole, unsigned2};
use layout_model::{Orient, Pair, factor_in, turns_in};

/// What the records of an element say, those so far.
#[derive(Clone, Copy)]
pub(crate) struct Element {
    /// The kind of its first record. None before the first element of the file.
    pub(crate) kind: Option<Kind>,
    /// LAYER and DATATYPE.
    pub(crate) pair: Pair,
    /// The record with the name of the placed structure.
    pub(crate) target: Option<Record>,
    pub(crate) path_type: u16,
    /// Below 0 where it is absolute.
    pub(crate) width: i32,
    pub(crate) begin: i32,
    pub(crate) end: i32,
    /// STRANS, MAG and ANGLE of a reference.
    pub(crate) orient: Orient,
    pub(crate) columns: u16,
    pub(crate) rows: u16,
}

/// The factor of a MAG: a whole number from 1 to 16.
pub(crate) fn factor_of(bits: u64) -> Option<u8>
    ensures some { IsSome result ↔ IsGdsiiFactor bits }
    ensures value { IfSome result (λ n. n ≡ magnitude_of bits) }
    ensures bounds { IfSome result (λ n. (1 ≤ n) × (n ≤ 16)) }
{
    match real_whole(bits) {
        Some(n) => factor_in(n),
        None => None,
    }
}

/// The quarter turns of an ANGLE: those of a multiple of 90 degrees from -360 to 360.
pub(crate) fn quarter_turns(bits: u64) -> Option<u8>
    ensures some { IsSome result ↔ IsGdsiiAngle bits }
    ensures value { IfSome result (λ turns. turns ≡ turns_by (sign_of bits) (magnitude_of bits / 90)) }
    ensures few { IfSome result (λ turns. turns < 4) }
{
    match real_whole(bits) {
        Some(degrees) => turns_in(degrees),
        None => None,
    }
}

const PLAIN: Orient = Orient {
    flip: false,
    turns: 0,
    mag: 1,
};

impl Element {
    /// An element that begins with a record of this kind.
    #[inline(always)]
    pub(crate) fn new(kind: Option<Kind>) -> Element
        ensures { result ≡ new_element kind }
    {
        Element {
            kind,
            pair: Pair {
                layer: 0,
                datatype: 0,
            },
            target: None,
            path_type: 0,
            width: 0,
            begin: 0,
            end: 0,
            orient: PLAIN,
            columns: 0,
            rows: 0,
        }
    }

    /// Whether it places a structure.
    #[inline(always)]
    pub(crate) fn is_reference(&self) -> bool
        ensures { IsTrue result ↔ ((self.now.kind ≡ Some Sref) ⊎ (self.now.kind ≡ Some Aref)) }
    {
        matches!(self.kind, Some(Kind::Sref | Kind::Aref))
    }

    /// Takes one more record, or begins the next element with it.
    #[inline(always)]
    pub(crate) fn take(&mut self, bytes: &[u8], current: Record)
        requires { IsHeld bytes.now current }
        ensures element { (past : List ARecord) (wanted : List APair) → IsElementOf bytes.now past self.old
            → KeepsGdsiiRules bytes.now wanted past current → IsElementOf bytes.now (current ∷ past) self.new }
        ensures orient { IsOrient self.old.orient → IsOrient self.new.orient }
    {
        let first = current.first;
        match current.kind {
            Kind::Boundary
            | Kind::Path
            | Kind::Sref
            | Kind::Aref
            | Kind::Text
            | Kind::Node
            | Kind::Box => *self = Element::new(Some(current.kind)),
            Kind::Layer => self.pair.layer = u64::from(unsigned2(bytes, first)),
            Kind::DataType => self.pair.datatype = u64::from(unsigned2(bytes, first)),
            Kind::Sname => self.target = Some(current),
            Kind::PathType => self.path_type = unsigned2(bytes, first),
            Kind::Width => self.width = int4(bytes, first),
            Kind::BgnExtn => self.begin = int4(bytes, first),
            Kind::EndExtn => self.end = int4(bytes, first),
            Kind::Strans => self.orient.flip = unsigned2(bytes, first) >= 0x8000,
            Kind::Mag => match factor_of(int8(bytes, first)) {
                Some(mag) => self.orient.mag = mag,
                None => {}
            },
            Kind::Angle => match quarter_turns(int8(bytes, first)) {
                Some(turns) => self.orient.turns = turns,
                None => {}
            },
            Kind::ColRow => {
                self.columns = unsigned2(bytes, first);
                self.rows = unsigned2(bytes, first + 2);
            }
            _ => {}
        }
    }
}
