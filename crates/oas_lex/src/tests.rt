//! Numbers, deltas, reals and shots by their bytes, worked out by hand.
use crate::{
    LexBad, ROOM, Real, ShotFields, Spell, delta_g, delta2, delta3, end_of_bytes, end_text,
    head_text, put_signed, put_unsigned, real, real_whole, shot_laws, signed, spell_fields,
    spell_shot, spelling_laws, text, unsigned,
};
use half_grid::{Line, Point, REACH, Trap};
use std::process::Abort;

const MOST: u64 = (1 << 63) - 1;

const MOST_SPELLED: [u8; 9] = [0xFF, 0xFF, 0xFF, 0xFF, 0xFF, 0xFF, 0xFF, 0xFF, 0x7F];

fn trap(rt: &impl Abort, y0: i64, y1: i64, left: Line, right: Line) -> Trap {
    Trap::new(y0, y1, left, right).expect(rt, "a legal trapezoid")
}

#[test]
fn reads_unsigned_numbers(rt: HostRuntime) {
    spelling_laws();
    assert_eq!(rt; unsigned(&[0x00], 0), Ok((0, 1)));
    assert_eq!(rt; unsigned(&[0x7F, 0x80, 0x01], 1), Ok((128, 3)));
    assert_eq!(rt; unsigned(&[0x81, 0x82, 0x03], 0), Ok((49409, 3)));
    assert_eq!(rt; unsigned(&[0x81, 0x80, 0x80, 0x01], 0), Ok((2_097_153, 4)));
    assert_eq!(rt; unsigned(&[0x81, 0x80], 0), Err(LexBad::Short));
    // Zero groups at the end are allowed, as many as there are.
    assert_eq!(rt; unsigned(&[0x81, 0x00], 0), Ok((1, 2)));
    assert_eq!(rt;
        unsigned(
            &[
                0x81, 0x80, 0x80, 0x80, 0x80, 0x80, 0x80, 0x80, 0x80, 0x80, 0x80, 0x00
            ],
            0
        ),
        Ok((1, 12))
    );
    // 63 bits fit, and the first group past them is too wide.
    assert_eq!(rt; unsigned(&MOST_SPELLED, 0), Ok((MOST, 9)));
    assert_eq!(rt;
        unsigned(
            &[0xFF, 0xFF, 0xFF, 0xFF, 0xFF, 0xFF, 0xFF, 0xFF, 0xFF, 0x01],
            0
        ),
        Err(LexBad::Wide)
    );
    assert_eq!(rt;
        unsigned(
            &[0x80, 0x80, 0x80, 0x80, 0x80, 0x80, 0x80, 0x80, 0x80, 0x81],
            0
        ),
        Err(LexBad::Wide)
    );
    assert_eq!(rt;
        unsigned(
            &[0x80, 0x80, 0x80, 0x80, 0x80, 0x80, 0x80, 0x80, 0x80, 0x80],
            0
        ),
        Err(LexBad::Short)
    );
    assert_eq!(rt; unsigned(&[0x01], 1), Err(LexBad::Short));
}

#[test]
fn reads_signed_numbers(rt: HostRuntime) {
    assert_eq!(rt; signed(&[0x00], 0), Ok((0, 1)));
    assert_eq!(rt; signed(&[0x01], 0), Ok((0, 1)));
    assert_eq!(rt; signed(&[0x09, 0x81, 0x01], 1), Ok((-64, 3)));
    assert_eq!(rt; signed(&MOST_SPELLED, 0), Ok((1 - (1 << 62), 9)));
    assert_eq!(rt;
        signed(
            &[0xFF, 0xFF, 0xFF, 0xFF, 0xFF, 0xFF, 0xFF, 0xFF, 0xFF, 0x01],
            0
        ),
        Err(LexBad::Wide)
    );
    assert_eq!(rt; signed(&[0x80], 0), Err(LexBad::Short));
}

#[test]
fn spells_numbers(rt: HostRuntime) {
    assert_eq!(rt; put_unsigned(0).bytes(), [0x00].as_slice());
    assert_eq!(rt; put_unsigned(1).bytes(), [0x01].as_slice());
    assert_eq!(rt; put_unsigned(127).bytes(), [0x7F].as_slice());
    assert_eq!(rt; put_unsigned(128).bytes(), [0x80, 0x01].as_slice());
    assert_eq!(rt; put_unsigned(MOST).bytes(), MOST_SPELLED.as_slice());
    assert_eq!(rt; put_signed(0).bytes(), [0x00].as_slice());
    assert_eq!(rt; put_signed(-1).bytes(), [0x03].as_slice());
    assert_eq!(rt; put_signed(-64).bytes(), [0x81, 0x01].as_slice());
    assert_eq!(rt; put_signed(63).bytes(), [0x7E].as_slice());
    assert_eq!(rt; put_signed(64).bytes(), [0x80, 0x01].as_slice());
    let mut spell = Spell::new();
    spell.put_bytes(b"ab");
    spell.push(b'c');
    spell.put_unsigned(300);
    spell.put_signed(-150);
    assert_eq!(rt;
        spell.bytes(),
        [0x61, 0x62, 0x63, 0xAC, 0x02, 0xAD, 0x02].as_slice()
    );
    assert_eq!(rt; ROOM, 80);
}

#[test]
fn spells_shots(rt: HostRuntime) {
    shot_laws();
    let square = trap(&rt, 0, 20, Line::Upright(0), Line::Upright(20));
    assert_eq!(rt;
        spell_shot(&square, 1, 0).bytes(),
        [0x14, 0x7B, 1, 0, 0x14, 0x14, 0, 0].as_slice()
    );
    let rising = trap(&rt, 0, 20, Line::Rising(0), Line::Upright(20));
    assert_eq!(rt;
        spell_shot(&rising, 1, 0).bytes(),
        [0x18, 0x7B, 1, 0, 0x14, 0x14, 0x28, 0, 0].as_slice()
    );
    let falling = trap(&rt, 0, 20, Line::Upright(0), Line::Falling(10));
    assert_eq!(rt;
        spell_shot(&falling, 1, 0).bytes(),
        [0x19, 0x7B, 1, 0, 0x14, 0x14, 0x29, 0, 0].as_slice()
    );
    let tip = trap(&rt, 0, 11, Line::Rising(0), Line::Falling(11));
    assert_eq!(rt;
        spell_shot(&tip, 1, 0).bytes(),
        [0x17, 0x7B, 1, 0, 0x16, 0x0B, 0x16, 0x17, 0, 0].as_slice()
    );
    let below = trap(&rt, -1, 0, Line::Upright(-1), Line::Upright(23));
    assert_eq!(rt;
        spell_shot(&below, 1, 0).bytes(),
        [0x14, 0x7B, 1, 0, 0x18, 1, 3, 3].as_slice()
    );
    let above = trap(&rt, 0, 1, Line::Upright(-1), Line::Upright(23));
    assert_eq!(rt;
        spell_shot(&above, 1, 0).bytes(),
        [0x14, 0x7B, 1, 0, 0x18, 1, 3, 0].as_slice()
    );
    let roof = trap(&rt, 1, 12, Line::Rising(-1), Line::Falling(12));
    assert_eq!(rt;
        spell_shot(&roof, 1, 0).bytes(),
        [0x17, 0x7B, 1, 0, 0x18, 0x0B, 0x16, 0x17, 3, 2].as_slice()
    );
}

#[test]
fn spells_fields_of_any_numbers(rt: HostRuntime) {
    let fields = ShotFields {
        layer: 300,
        datatype: 0,
        width: 5,
        height: 1,
        left_delta: -1,
        right_delta: 0,
        x: -1,
        y: 64,
    };
    assert_eq!(rt;
        spell_fields(&fields).bytes(),
        [0x18, 0x7B, 0xAC, 2, 0, 5, 1, 3, 3, 0x80, 1].as_slice()
    );
}

#[test]
fn spells_the_largest_shot(rt: HostRuntime) {
    let all = trap(
        &rt,
        -REACH,
        REACH,
        Line::Upright(-REACH),
        Line::Upright(REACH),
    );
    let size = [0x80, 0x80, 0x80, 0x80, 0x80, 0x80, 0x08];
    let corner = [0x81, 0x80, 0x80, 0x80, 0x80, 0x80, 0x08];
    let mut wanted = Spell::new();
    wanted.put_bytes(&[0x14, 0x7B]);
    wanted.put_bytes(&MOST_SPELLED);
    wanted.put_bytes(&MOST_SPELLED);
    wanted.put_bytes(&size);
    wanted.put_bytes(&size);
    wanted.put_bytes(&corner);
    wanted.put_bytes(&corner);
    assert_eq!(rt; spell_shot(&all, MOST, MOST).bytes(), wanted.bytes());
}

#[test]
fn begins_and_ends_a_shot_file(rt: HostRuntime) {
    let mut wanted = Spell::new();
    wanted.put_bytes(b"%SEMI-OASIS\x0D\x0A");
    wanted.put_bytes(&[0x01, 0x03, 0x31, 0x2E, 0x30, 0x00, 0xD0, 0x0F, 0x00]);
    wanted.put_bytes(&[0; 12]);
    wanted.put_bytes(&[0x0E, 0x05, 0x53, 0x48, 0x4F, 0x54, 0x53]);
    assert_eq!(rt; head_text(2000).bytes(), wanted.bytes());
    let end = end_text();
    assert_eq!(rt; end.len(), 256);
    assert_eq!(rt; &end[..4], [0x02, 0xFC, 0x01, 0x00].as_slice());
    assert!(rt; end[3..].iter().all(|byte| *byte == 0));
}

fn whole(bytes: &[u8]) -> Option<i64> {
    match real(bytes, 0) {
        Ok((real, _next)) => real_whole(real),
        Err(_bad) => None,
    }
}

#[test]
fn reads_reals(rt: HostRuntime) {
    let third = Real {
        kind: 3,
        a: 3,
        b: 0,
    };
    assert_eq!(rt; real(&[0x05, 0x03, 0x03], 1), Ok((third, 3)));
    let ratio = Real {
        kind: 5,
        a: 7,
        b: 128,
    };
    assert_eq!(rt; real(&[0x05, 0x07, 0x80, 0x01, 0xFF], 0), Ok((ratio, 4)));
    assert_eq!(rt; real(&[0x05, 0x07], 0), Err(LexBad::Short));
    assert_eq!(rt; real(&[0x06, 0x00, 0x00, 0x00], 0), Err(LexBad::Short));
    assert_eq!(rt; real(&[0x08], 0), Err(LexBad::RealKind));
    assert_eq!(rt; real(&[0x08], 1), Err(LexBad::Short));
}

#[test]
fn takes_whole_reals(rt: HostRuntime) {
    assert_eq!(rt; whole(&[0x00, 0x05]), Some(5));
    assert_eq!(rt; whole(&[0x01, 0x05]), Some(-5));
    assert_eq!(rt; whole(&[0x02, 0x01]), Some(1));
    assert_eq!(rt; whole(&[0x02, 0x02]), None);
    assert_eq!(rt; whole(&[0x03, 0x00]), None);
    assert_eq!(rt; whole(&[0x04, 0x06, 0x02]), Some(3));
    assert_eq!(rt; whole(&[0x05, 0x06, 0x04]), None);
    assert_eq!(rt; whole(&[0x05, 0x06, 0x00]), None);
    assert_eq!(rt; whole(&[0x01, 0xFF, 0xFF, 0xFF, 0x07]), Some(1 - (1 << 24)));
    assert_eq!(rt; whole(&[0x00, 0x80, 0x80, 0x80, 0x08]), None);
    // 90 and 270 as doubles, 1, -2 and 0.5 as singles, 0 with its sign.
    assert_eq!(rt; whole(&[0x07, 0, 0, 0, 0, 0, 0x80, 0x56, 0x40]), Some(90));
    assert_eq!(rt; whole(&[0x07, 0, 0, 0, 0, 0, 0xE0, 0x70, 0x40]), Some(270));
    assert_eq!(rt; whole(&[0x06, 0, 0, 0x80, 0x3F]), Some(1));
    assert_eq!(rt; whole(&[0x06, 0, 0, 0, 0xC0]), Some(-2));
    assert_eq!(rt; whole(&[0x06, 0, 0, 0, 0x3F]), None);
    assert_eq!(rt; whole(&[0x06, 0, 0, 0, 0x80]), Some(0));
}

#[test]
fn reads_deltas(rt: HostRuntime) {
    assert_eq!(rt; delta2(&[0x0D], 0), Ok((Point { x: 0, y: 3 }, 1)));
    assert_eq!(rt; delta3(&[0x2C], 0), Ok((Point { x: 5, y: 5 }, 1)));
    assert_eq!(rt; delta_g(&[0x74], 0), Ok((Point { x: -7, y: 0 }, 1)));
    assert_eq!(rt;
        delta_g(&[0xA1, 0x01, 0x00], 0),
        Ok((Point { x: 40, y: 0 }, 3))
    );
    assert_eq!(rt; delta_g(&[0x07, 0x05], 0), Ok((Point { x: -1, y: -2 }, 2)));
    assert_eq!(rt; delta3(&[0x0E], 0), Ok((Point { x: -1, y: -1 }, 1)));
    assert_eq!(rt; delta_g(&[0x07], 0), Err(LexBad::Short));
}

#[test]
fn reads_strings(rt: HostRuntime) {
    assert_eq!(rt; text(&[0x02, 0x41, 0x42, 0x43], 0), Ok((1, 3)));
    assert_eq!(rt; text(&[0x00], 0), Ok((1, 1)));
    assert_eq!(rt; text(&[0x03, 0x41, 0x42], 0), Err(LexBad::Short));
    assert_eq!(rt; end_of_bytes(&[0x41, 0x42], 1, 1), Ok(2));
}
