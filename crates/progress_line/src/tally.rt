//! What the bytes of a plain shot file say of its shots.
//!
//! The bytes are looked at as they go by. Those of any other file stop it at the first that a shot file hasn't there.
ghost use Rattle.std.specs.Prelude.{◌≡◌};

use crate::thick::Thicknesses;
use std::alloc::Global;

/// The bytes of a shot file before the number of half units a micrometre.
const HEAD: &[u8] = b"%SEMI-OASIS\r\n\x01\x031.0\x00";

/// The bytes between that number and the first shot.
const TAIL: &[u8] = b"\0\0\0\0\0\0\0\0\0\0\0\0\0\x0e\x05SHOTS";

/// The second byte of a shot.
const INFO: u8 = 0x7b;

/// A rectangle, of which no side is slanted.
const RECTANGLE: u8 = 0x14;

/// A shot whose left and right sides are slanted.
const BOTH_SLANTED: u8 = 0x17;

/// A shot whose left side is slanted.
const LEFT_SLANTED: u8 = 0x18;

/// A shot whose right side is slanted.
const RIGHT_SLANTED: u8 = 0x19;

/// The last record.
const END: u8 = 2;

/// A number of a shot, in the order of its record.
#[derive(Clone, Copy, Debug, PartialEq, Eq)]
enum Field {
    Layer,
    Datatype,
    Width,
    Height,
    LeftMove,
    RightMove,
    X,
    Y,
}

/// What the next byte is.
#[derive(Clone, Copy, Debug, PartialEq, Eq)]
enum Step {
    Head(usize),
    Unit,
    Tail(usize),
    Id,
    Info,
    Number(Field),
    End,
    Other,
}

/// The numbers of a shot that say how large it is.
#[derive(Clone, Copy)]
struct Sizes {
    id: u8,
    width: u64,
    height: u64,
    left_move: i64,
    right_move: i64,
}

/// The sums of a shot file. Lengths are in half units.
#[derive(Clone, Copy)]
pub(crate) struct Sums {
    /// How many half units are a micrometre.
    pub(crate) unit: u64,
    /// How many shots there are.
    pub(crate) shots: u64,
    /// How many triangles of the half grid they have.
    pub(crate) triangles: u128,
    /// The least of the lower and upper sides that have a length.
    pub(crate) least_width: u64,
    /// The least height.
    pub(crate) least_height: u64,
}

/// The shots of a file whose bytes go by.
#[derive(Drop)]
pub(crate) struct Tally {
    step: Step,
    value: u64,
    factor: u64,
    sizes: Sizes,
    sums: Sums,
    thicknesses: Thicknesses,
}

// Whether the text has this byte at that place.
fn is_at(text: &[u8], place: usize, byte: u8) -> bool {
    text.get(place) == Some(&byte)
}

// A number as a signed one is spelled: its lowest bit says that it is below 0.
fn signed(value: u64) -> i64 {
    let size = (value / 2) as i64;
    if value % 2 == 0 {
        size
    } else {
        size.saturating_neg()
    }
}

// The lesser of a length and another one that is above 0.
fn least(length: u64, other: u64) -> u64 {
    if other == 0 {
        length
    } else {
        length.min(other)
    }
}

impl Sizes {
    // The lengths of the lower and the upper side.
    fn sides(&self) -> (u64, u64) {
        let wider = self
            .right_move
            .max(0)
            .saturating_sub(self.left_move.min(0))
            .unsigned_abs();
        let lower = self.width.saturating_sub(wider);
        let wide = self.right_move.saturating_sub(self.left_move);
        let upper = if wide < 0 {
            lower.saturating_sub(wide.unsigned_abs())
        } else {
            lower.saturating_add(wide.unsigned_abs())
        };
        (lower, upper)
    }

    // Twice the lesser of the height and the mean of both sides.
    fn double_thickness(&self) -> u64 {
        let (lower, upper) = self.sides();
        self.height
            .saturating_mul(2)
            .min(lower.saturating_add(upper))
    }

    fn has_left_move(&self) -> bool {
        self.id == BOTH_SLANTED || self.id == LEFT_SLANTED
    }

    fn has_right_move(&self) -> bool {
        self.id == BOTH_SLANTED || self.id == RIGHT_SLANTED
    }

    // The number after one of them. None after the last.
    fn after(&self, field: Field) -> Option<Field> {
        match field {
            Field::Layer => Some(Field::Datatype),
            Field::Datatype => Some(Field::Width),
            Field::Width => Some(Field::Height),
            Field::Height if self.has_left_move() => Some(Field::LeftMove),
            Field::Height | Field::LeftMove if self.has_right_move() => Some(Field::RightMove),
            Field::Height | Field::LeftMove | Field::RightMove => Some(Field::X),
            Field::X => Some(Field::Y),
            Field::Y => None,
        }
    }

    // Takes note of one of them.
    fn set(&mut self, field: Field, value: u64) {
        match field {
            Field::Width => self.width = value,
            Field::Height => self.height = value,
            Field::LeftMove => self.left_move = signed(value),
            Field::RightMove => self.right_move = signed(value),
            _ => {}
        }
    }
}

impl Sums {
    // One more shot is added.
    fn add(&mut self, sizes: &Sizes) {
        let (lower, upper) = sizes.sides();
        let sides = u128::from(lower) + u128::from(upper);
        self.shots = self.shots.saturating_add(1);
        self.triangles = self
            .triangles
            .saturating_add(sides.saturating_mul(u128::from(sizes.height)));
        self.least_width = least(least(self.least_width, lower), upper);
        self.least_height = least(self.least_height, sizes.height);
    }
}

impl Tally {
    /// No byte has gone by. It takes no memory.
    pub(crate) fn new(alloc: Global) -> Tally {
        Tally {
            step: Step::Head(0),
            value: 0,
            factor: 1,
            sizes: Sizes {
                id: 0,
                width: 0,
                height: 0,
                left_move: 0,
                right_move: 0,
            },
            sums: Sums {
                unit: 0,
                shots: 0,
                triangles: 0,
                least_width: u64::MAX,
                least_height: u64::MAX,
            },
            thicknesses: Thicknesses::new(alloc),
        }
    }

    /// How many of the shots are thinner than a tenth of the median. None where that isn't known.
    pub(crate) fn thin(&self) -> Option<u64> {
        self.thicknesses.thin(self.sums.shots)
    }

    /// The sums of the shots. None where the bytes aren't those of a whole plain shot file.
    pub(crate) fn sums(&self) -> Option<Sums> {
        if self.step == Step::End {
            Some(self.sums)
        } else {
            None
        }
    }

    /// The next bytes go by.
    pub(crate) fn take(&mut self, bytes: &[u8]) {
        if self.step == Step::Other {
            return;
        }
        for byte in bytes {
            self.step = self.next(*byte);
        }
    }

    // Puts the next byte of a number to it. True where it is the last.
    fn ends(&mut self, byte: u8) -> bool {
        let group = u64::from(byte % 128);
        self.value = self.value.saturating_add(group.saturating_mul(self.factor));
        self.factor = self.factor.saturating_mul(128);
        byte < 128
    }

    // The number that was read.
    fn number(&mut self) -> u64 {
        let value = self.value;
        self.value = 0;
        self.factor = 1;
        value
    }

    // A record begins with this byte.
    fn begin(&mut self, id: u8) -> Step {
        match id {
            END => Step::End,
            RECTANGLE | BOTH_SLANTED | LEFT_SLANTED | RIGHT_SLANTED => {
                self.sizes = Sizes {
                    id,
                    width: 0,
                    height: 0,
                    left_move: 0,
                    right_move: 0,
                };
                Step::Info
            }
            _ => Step::Other,
        }
    }

    // A byte of a number of a shot.
    fn field(&mut self, field: Field, byte: u8) -> Step {
        if !self.ends(byte) {
            return Step::Number(field);
        }
        let value = self.number();
        self.sizes.set(field, value);
        match self.sizes.after(field) {
            Some(next) => Step::Number(next),
            None => {
                self.sums.add(&self.sizes);
                self.thicknesses.add(self.sizes.double_thickness());
                Step::Id
            }
        }
    }

    // A byte of the number of half units.
    fn unit(&mut self, byte: u8) -> Step {
        if !self.ends(byte) {
            return Step::Unit;
        }
        self.sums.unit = self.number();
        Step::Tail(0)
    }

    // What the byte after this one is.
    fn next(&mut self, byte: u8) -> Step {
        match self.step {
            Step::Head(place) if is_at(HEAD, place, byte) => head_after(place),
            Step::Tail(place) if is_at(TAIL, place, byte) => tail_after(place),
            Step::Unit => self.unit(byte),
            Step::Id => self.begin(byte),
            Step::Info if byte == INFO => Step::Number(Field::Layer),
            Step::Number(field) => self.field(field, byte),
            Step::End => Step::End,
            _ => Step::Other,
        }
    }
}

// What comes after this place of the head.
fn head_after(place: usize) -> Step {
    let next = place.saturating_add(1);
    if next == HEAD.len() {
        Step::Unit
    } else {
        Step::Head(next)
    }
}

// What comes after this place of the bytes before the first shot.
fn tail_after(place: usize) -> Step {
    let next = place.saturating_add(1);
    if next == TAIL.len() {
        Step::Id
    } else {
        Step::Tail(next)
    }
}
