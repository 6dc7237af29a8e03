//! Outside vectors: a small layout record by record, bytes with each fault, and reals whose values are
//! known.

use crate::{
    Framing, Kind, Record, int2, int4, int8, real_whole, record_at, records_law, unit_agrees,
    unsigned2,
};

/// A library with one structure that holds one square of side 10 on layer 1, datatype 0.
const SQUARE: [u8; 168] = [
    0x00, 0x06, 0x00, 0x02, 0x02, 0x58, // HEADER, version 600
    0x00, 0x1C, 0x01, 0x02, 0, 0, 0, 0, 0, 0, 0, 0, 0, 0, 0, 0, // BGNLIB
    0, 0, 0, 0, 0, 0, 0, 0, 0, 0, 0, 0, //
    0x00, 0x06, 0x02, 0x06, 0x4C, 0x00, // LIBNAME
    0x00, 0x14, 0x03, 0x05, 0x3E, 0x41, 0x89, 0x37, 0x4B, 0xC6, 0xA7, 0xF0, // UNITS
    0x39, 0x44, 0xB8, 0x2F, 0xA0, 0x9B, 0x5A, 0x54, //
    0x00, 0x1C, 0x05, 0x02, 0, 0, 0, 0, 0, 0, 0, 0, 0, 0, 0, 0, // BGNSTR
    0, 0, 0, 0, 0, 0, 0, 0, 0, 0, 0, 0, //
    0x00, 0x08, 0x06, 0x06, 0x54, 0x4F, 0x50, 0x00, // STRNAME
    0x00, 0x04, 0x08, 0x00, // BOUNDARY
    0x00, 0x06, 0x0D, 0x02, 0x00, 0x01, // LAYER
    0x00, 0x06, 0x0E, 0x02, 0x00, 0x00, // DATATYPE
    0x00, 0x2C, 0x10, 0x03, 0, 0, 0, 0, 0, 0, 0, 0, // XY
    0, 0, 0, 0, 0, 0, 0, 10, 0, 0, 0, 10, 0, 0, 0, 10, //
    0, 0, 0, 10, 0, 0, 0, 0, 0, 0, 0, 0, 0, 0, 0, 0, //
    0x00, 0x04, 0x11, 0x00, // ENDEL
    0x00, 0x04, 0x07, 0x00, // ENDSTR
    0x00, 0x04, 0x04, 0x00, // ENDLIB
];

#[test]
fn records_of_a_layout(rt: HostRuntime) {
    records_law();
    let rows = [
        (0, Kind::Header, 2),
        (6, Kind::BgnLib, 24),
        (34, Kind::LibName, 2),
        (40, Kind::Units, 16),
        (60, Kind::BgnStr, 24),
        (88, Kind::StrName, 4),
        (96, Kind::Boundary, 0),
        (100, Kind::Layer, 2),
        (106, Kind::DataType, 2),
        (112, Kind::Xy, 40),
        (156, Kind::EndEl, 0),
        (160, Kind::EndStr, 0),
        (164, Kind::EndLib, 0),
    ];
    for (at, kind, content) in rows {
        assert!(rt; at <= 164 && content <= 40);
        let wanted = Record {
            kind,
            first: at + 4,
            next: at + 4 + content,
        };
        assert_eq!(rt; record_at(&SQUARE, at), Ok(wanted));
    }
    assert_eq!(rt; record_at(&SQUARE, 168), Err(Framing::Short));
}

#[test]
fn faults_in_order(rt: HostRuntime) {
    let rows: [(&[u8], Framing); 16] = [
        // fewer than four bytes, whatever they are
        (&[], Framing::Short),
        (&[0, 5, 0xFF], Framing::Short),
        // below four or odd, before the bytes that are left and the head are looked at
        (&[0, 0, 4, 0], Framing::Length),
        (&[0, 2, 4, 0], Framing::Length),
        (&[0, 3, 4, 0], Framing::Length),
        (&[0, 5, 4, 0, 0], Framing::Length),
        (&[0, 7, 0xFF, 0xFF], Framing::Length),
        // fewer bytes than the length, before the head is looked at
        (&[0, 6, 0x0D, 0x02, 0], Framing::Short),
        (&[0, 6, 0xFF, 0xFF], Framing::Short),
        (&[4, 0, 0x04, 0x00], Framing::Short),
        // a head that no kind has: an unknown record type, another data type
        (&[0, 4, 0x3C, 0x00], Framing::Kind),
        (&[0, 6, 0x0D, 0x03, 0, 1], Framing::Kind),
        // a content of another length
        (&[0, 4, 0x0D, 0x02], Framing::Size),
        (&[0, 6, 0x04, 0x00, 0, 0], Framing::Size),
        (&[0, 4, 0x10, 0x03], Framing::Size),
        (&[0, 8, 0x10, 0x03, 0, 0, 0, 1], Framing::Size),
    ];
    for (bytes, fault) in rows {
        assert_eq!(rt; record_at(bytes, 0), Err(fault));
    }
}

#[test]
fn numbers_in_records(rt: HostRuntime) {
    let bytes = [0x7F, 0xFF, 0xFF, 0xFE, 0x80, 0x00, 0x00, 0x0A, 0x01, 0x02];
    assert_eq!(rt; int2(&bytes, 0), 32767);
    assert_eq!(rt; int2(&bytes, 2), -2);
    assert_eq!(rt; int2(&bytes, 4), -32768);
    assert_eq!(rt; unsigned2(&bytes, 2), 65534);
    assert_eq!(rt; int2(&bytes, 8), 258);
    assert_eq!(rt; int4(&bytes, 0), 2147483646);
    assert_eq!(rt; int4(&bytes, 4), -2147483638);
    assert_eq!(rt; int4(&bytes, 6), 655618);
    assert_eq!(rt; int8(&bytes, 0), 0x7FFFFFFE8000000A);
    assert_eq!(rt; int8(&SQUARE, 44), 0x3E4189374BC6A7F0);
}

#[test]
fn whole_reals(rt: HostRuntime) {
    let rows: [(u64, Option<i64>); 19] = [
        (0x0000000000000000, Some(0)),
        (0x8000000000000000, Some(0)),
        (0x7F00000000000000, Some(0)),
        (0x4110000000000000, Some(1)),
        (0x4201000000000000, Some(1)),
        (0xC110000000000000, Some(-1)),
        (0x422D000000000000, Some(45)),
        (0x425A000000000000, Some(90)),
        (0x42B4000000000000, Some(180)),
        (0x4310E00000000000, Some(270)),
        (0xC310E00000000000, Some(-270)),
        // the greatest exponent and fraction
        (0x4EFFFFFFFFFFFFFF, Some(72057594037927935)),
        (0xCEFFFFFFFFFFFFFF, Some(-72057594037927935)),
        (0x4F10000000000000, None),
        (0x7FFFFFFFFFFFFFFF, None),
        // a half, one and a half, a thousandth, a billionth
        (0x4080000000000000, None),
        (0x4118000000000000, None),
        (0x3E4189374BC6A7F0, None),
        (0x3944B82FA09B5A54, None),
    ];
    for (bits, value) in rows {
        assert_eq!(rt; real_whole(bits), value);
    }
}

#[test]
fn units(rt: HostRuntime) {
    let rows = [
        // a nanometre
        (0x3944B82FA09B5A54, 1, false),
        (0x3944B82FA09B5A54, 1000, true),
        (0x3944B82FA09B5A54, 2000, false),
        (0x3944B82FA09B5A54, 1000000, false),
        (0xB944B82FA09B5A54, 1000, false),
        // the least and the greatest real near it, and their neighbours
        (0x3944B82FA09B159A, 1000, false),
        (0x3944B82FA09B159B, 1000, true),
        (0x3944B82FA09B9F0A, 1000, true),
        (0x3944B82FA09B9F0B, 1000, false),
        // a micrometre, half a nanometre, a quarter of a femtometre
        (0x3C10C6F7A0B5ED8D, 1, true),
        (0x3C10C6F7A0B5ED8D, 1000, false),
        (0x39225C17D04DAD2A, 2000, true),
        (0x341203AF9EE75616, 4000000000, true),
        (0, 1000, false),
        (0x7FFFFFFFFFFFFFFF, 4294967295, false),
    ];
    for (bits, unit, agrees) in rows {
        assert_eq!(rt; unit_agrees(bits, unit), agrees);
    }
}
