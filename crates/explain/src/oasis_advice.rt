//! What a refusal of an OASIS file means, and what to do about it.
use crate::advice::Advice;
use oas_reader::OasBad;
use oas_record::RecordBad;

/// `layout refused: oasis magic`
pub(crate) const MAGIC: Advice = Advice {
    means: "the file begins with `%` and not with `%SEMI-OASIS`, CR, LF",
    advice: "transfer the file again as binary",
};

/// `layout refused: oasis record at A short`
pub(crate) const SHORT: Advice = Advice {
    means: "the file ends inside a record",
    advice: "transfer the file again, or export it again as OASIS 1.0",
};

/// `layout refused: oasis record at A wide`
pub(crate) const WIDE: Advice = Advice {
    means: "a number of a record has more than 63 bits",
    advice: "transfer the file again, or export it again as OASIS 1.0",
};

/// `layout refused: oasis record at A kind`
pub(crate) const KIND: Advice = Advice {
    means: "a record's id, or the kind of a number in it, is none of OASIS 1.0",
    advice: "transfer the file again, or export it again as OASIS 1.0",
};

/// `layout refused: oasis record at A shape`
pub(crate) const SHAPE: Advice = Advice {
    means: "a record has a field, a point list or a repetition that OASIS 1.0 hasn't",
    advice: "transfer the file again, or export it again as OASIS 1.0",
};

/// `layout refused: oasis record at A packed`
pub(crate) const PACKED: Advice = Advice {
    means: "the file has compressed blocks (CBLOCK)",
    advice: "export it without compression",
};

/// `layout refused: oasis order at A`
pub(crate) const ORDER: Advice = Advice {
    means: "a record can't be where it is",
    advice: "export the layout with another tool",
};

/// `layout refused: oasis undefined at A VARIABLE`
pub(crate) const UNDEFINED: Advice = Advice {
    means: "a record leaves a field out that nothing before it in its cell has written",
    advice: "export the layout with another tool",
};

/// `layout refused: oasis value at A rule 1`
pub(crate) const FAR: Advice = Advice {
    means: "a place, a size or a vertex is further than 2^40 grid steps from 0",
    advice: "move the layout, or leave the shape's layer out of the deck",
};

/// `layout refused: oasis value at A rule 2`
pub(crate) const NAME: Advice = Advice {
    means: "a cell's name hasn't 1 to 1,024 printable ASCII characters",
    advice: "rename the cell",
};

/// `layout refused: oasis value at A rule 3`
pub(crate) const NAMELESS: Advice = Advice {
    means: "a cell has a number to which no CELLNAME record gives a name",
    advice: "export the layout with another tool",
};

/// `layout refused: oasis value at A rule 4`
pub(crate) const MAGNIFIED: Advice = Advice {
    means: "a placement's magnification isn't a whole number from 1 to 16",
    advice: "draw the cell in its size, or flatten the placement",
};

/// `layout refused: oasis value at A rule 5`
pub(crate) const ANGLE: Advice = Advice {
    means: "a placement's angle isn't a multiple of 90 degrees from -360 to 360",
    advice: "turn it by a quarter turn, or flatten the placement",
};

/// `layout refused: oasis value at A rule 6`
pub(crate) const SLANTED: Advice = Advice {
    means: "a shape has an edge at another angle than 0, 45 or 90 degrees",
    advice: "change the shape, or leave its layer out: `tools/readable LAYOUT` lists all such layers",
};

/// `layout refused: oasis value at A rule 7`
pub(crate) const CIRCLE: Advice = Advice {
    means: "a circle or an extension of the format is on a layer of the deck",
    advice: "make a polygon of it, or leave its layer out: `tools/readable LAYOUT` lists all such layers",
};

/// `layout refused: oasis value at A rule 8`
pub(crate) const PATH: Advice = Advice {
    means: "a path has a diagonal piece, turns back, is one point, or begins or ends with no length",
    advice: "make a polygon of it, or leave its layer out: `tools/readable LAYOUT` lists all such layers",
};

/// `layout refused: oasis value at A rule 9`
pub(crate) const VERSION: Advice = Advice {
    means: "the file's version isn't 1.0, or its offset flag isn't 0 or 1",
    advice: "export it as OASIS 1.0",
};

/// `layout refused: oasis value at A rule 10`
pub(crate) const SCHEME: Advice = Advice {
    means: "the validation scheme isn't 0, 1 or 2",
    advice: "export it without validation",
};

/// `layout refused: oasis value at A rule 11`
pub(crate) const ARRAY: Advice = Advice {
    means: "a repetition's dimension is more than 16,777,216",
    advice: "split the array",
};

/// `layout refused: oasis names at A and B`
pub(crate) const NAMES: Advice = Advice {
    means: "two records give one number twice, number cells in two ways, or name two cells alike",
    advice: "rename one of the two cells, or export the layout with another tool",
};

/// `layout refused: oasis tail at A`
pub(crate) const TAIL: Advice = Advice {
    means: "the END record hasn't 256 bytes, or bytes come after it",
    advice: "cut them off, or export the layout again",
};

/// `layout refused: oasis unit at A`
pub(crate) const UNIT: Advice = Advice {
    means: "the file has another number of grid steps in a micrometre than the deck",
    advice: "give `unit` the file's number, and scale the deck's lengths by the same factor",
};

// The advice on bytes that are no record.
fn cause_advice(cause: &RecordBad) -> Advice {
    match cause {
        RecordBad::Short => SHORT,
        RecordBad::Wide => WIDE,
        RecordBad::Kind => KIND,
        RecordBad::Packed => PACKED,
        RecordBad::Shape => SHAPE,
    }
}

// The advice on a rule of values.
fn rule_advice(rule: u8) -> Advice {
    match rule {
        1 => FAR,
        2 => NAME,
        3 => NAMELESS,
        4 => MAGNIFIED,
        5 => ANGLE,
        6 => SLANTED,
        7 => CIRCLE,
        8 => PATH,
        9 => VERSION,
        10 => SCHEME,
        _ => ARRAY,
    }
}

/// The advice on an OASIS file's first fault.
pub(crate) fn oas_advice(bad: &OasBad) -> Advice {
    match bad {
        OasBad::Magic => MAGIC,
        OasBad::Lexical(_, cause) => cause_advice(cause),
        OasBad::Order(_) => ORDER,
        OasBad::Undefined(_, _) => UNDEFINED,
        OasBad::Value(_, rule) => rule_advice(*rule),
        OasBad::Names(_, _) => NAMES,
        OasBad::Tail(_) => TAIL,
        OasBad::Unit(_) => UNIT,
    }
}
