//! What a refusal of a shot file means, and what to do about it.
use crate::advice::Advice;
use half_grid::Side;
use job_report::CheckFault;
use shot_reader::ShotBad;
use shot_repeat::PackBad;

/// `check refused: FILE: longer than 268435456 bytes`
pub(crate) const LONG_FILE: Advice = Advice {
    means: "the shot file has more than 268,435,456 bytes",
    advice: "have fewer shots, by larger limits, or several outputs",
};

/// `check refused: FILE: head at A`
pub(crate) const HEAD: Advice = Advice {
    means: "the file doesn't begin as a shot file",
    advice: "write it anew with `fracture`",
};

/// `check refused: FILE: record at A`
pub(crate) const RECORD: Advice = Advice {
    means: "no whole record of a shot is at this byte",
    advice: "write it anew with `fracture`",
};

/// `check refused: FILE: spelling at A`
pub(crate) const SPELLING: Advice = Advice {
    means: "a record isn't spelled as in a shot file, or has another layer than the first",
    advice: "write it anew with `fracture`",
};

/// `check refused: FILE: illegal at A`
pub(crate) const ILLEGAL: Advice = Advice {
    means: "a record is that of no legal shot",
    advice: "write it anew with `fracture`",
};

/// `check refused: FILE: end at A`
pub(crate) const END: Advice = Advice {
    means: "the file doesn't end as a shot file",
    advice: "write it anew with `fracture`",
};

/// `check refused: FILE: unit or layer differs`
pub(crate) const OTHER: Advice = Advice {
    means: "the file was made for another unit, or another layer and datatype, than the output has",
    advice: "use the deck that it was made with, or write it anew with `fracture`",
};

/// `check refused: FILE: shot K too large`
pub(crate) const TOO_LARGE: Advice = Advice {
    means: "a shot is beyond the deck's limits",
    advice: "use the limits that it was made with, or write it anew with `fracture`",
};

/// `check refused: FILE: tile I J left count C wanted W`
pub(crate) const LEFT: Advice = Advice {
    means: "a left triangle of a unit square isn't in as many shots as it should be",
    advice: "look there with `tools/draw`: a shot is missing, doubled or moved, or the layout is another",
};

/// `check refused: FILE: tile I J right count C wanted W`
pub(crate) const RIGHT: Advice = Advice {
    means: "a right triangle of a unit square isn't in as many shots as it should be",
    advice: "look there with `tools/draw`: a shot is missing, doubled or moved, or the layout is another",
};

/// `check refused: FILE: shot K past field reach`
pub(crate) const TOO_WIDE: Advice = Advice {
    means: "a shot is more than 16,777,216 half units high, or its box more than 33,554,432 wide",
    advice: "write it anew with smaller limits of shots",
};

/// `check refused: FILE: V stripes`
pub(crate) const STRIPES: Advice = Advice {
    means: "with fields of this size the shots reach over more than 4,096 stripes",
    advice: "take larger fields",
};

/// `check refused: FILE: packed head at A`
pub(crate) const PACKED_HEAD: Advice = Advice {
    means: "the file doesn't begin as a packed shot file",
    advice: "pack it anew",
};

/// `check refused: FILE: packed record at A`
pub(crate) const PACKED_RECORD: Advice = Advice {
    means: "no whole record of a packed shot file is at this byte",
    advice: "pack it anew",
};

/// `check refused: FILE: packed spelling at A`
pub(crate) const PACKED_SPELLING: Advice = Advice {
    means: "a record isn't spelled as in a packed shot file",
    advice: "pack it anew",
};

/// `check refused: FILE: packed illegal at A`
pub(crate) const PACKED_ILLEGAL: Advice = Advice {
    means: "a record stands for a shot that isn't legal",
    advice: "pack it anew",
};

/// `check refused: FILE: packed end at A`
pub(crate) const PACKED_END: Advice = Advice {
    means: "the file doesn't end as a packed shot file",
    advice: "pack it anew",
};

/// `check refused: FILE: packed undefined at A`
pub(crate) const PACKED_UNDEFINED: Advice = Advice {
    means: "a record leaves a field out that none before it has written",
    advice: "pack it anew",
};

/// `check refused: FILE: packed pair at A`
pub(crate) const PACKED_PAIR: Advice = Advice {
    means: "a record has another layer or datatype than the first",
    advice: "have one file for each",
};

/// `check refused: FILE: packed many at A`
pub(crate) const PACKED_MANY: Advice = Advice {
    means: "the file stands for more than 33,554,432 shots, or a record for more than 16,777,216",
    advice: "make several files",
};

// The advice on bytes that are no text of shots.
fn bad_advice(bad: &ShotBad) -> Advice {
    match bad {
        ShotBad::Head(_) => HEAD,
        ShotBad::Record(_) => RECORD,
        ShotBad::Spelling(_) => SPELLING,
        ShotBad::Illegal(_) => ILLEGAL,
        ShotBad::End(_) => END,
    }
}

// The advice on bytes that are no packed shot file.
fn packed_advice(bad: &PackBad) -> Advice {
    match bad {
        PackBad::Head(_) => PACKED_HEAD,
        PackBad::Record(_) => PACKED_RECORD,
        PackBad::Spelling(_) => PACKED_SPELLING,
        PackBad::Undefined(_) => PACKED_UNDEFINED,
        PackBad::Pair(_) => PACKED_PAIR,
        PackBad::Many(_) => PACKED_MANY,
        PackBad::Illegal(_) => PACKED_ILLEGAL,
        PackBad::End(_) => PACKED_END,
    }
}

/// The advice on a refused shot file.
pub(crate) fn shot_advice(fault: &CheckFault) -> Advice {
    match fault {
        CheckFault::Long => LONG_FILE,
        CheckFault::Bad(bad) => bad_advice(bad),
        CheckFault::Head => OTHER,
        CheckFault::Miscovered(tile, _, _) => match tile.side {
            Side::Left => LEFT,
            Side::Right => RIGHT,
        },
        CheckFault::TooLarge(_) => TOO_LARGE,
        CheckFault::Pack(bad) => packed_advice(bad),
        CheckFault::Wide(_) => TOO_WIDE,
        CheckFault::Stripes(_) => STRIPES,
    }
}
