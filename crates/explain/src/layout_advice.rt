//! What a refusal of a layout means, and what to do about it, where it isn't about the records of an OASIS file.
use crate::advice::Advice;
use crate::oasis_advice::oas_advice;
use cell_tree::TreeBad;
use gds_reader::GdsBad;
use job_input::LayoutFault;

/// `layout refused: longer than 268435456 bytes`
pub(crate) const LONG_LAYOUT: Advice = Advice {
    means: "the layout has more than 268,435,456 bytes",
    advice: "split the layout",
};

/// `layout refused: gdsii short at A`
pub(crate) const GDS_SHORT: Advice = Advice {
    means: "the file ends inside a record",
    advice: "transfer the file again, or export it again as GDSII release 6 without compression",
};

/// `layout refused: gdsii length at A`
pub(crate) const GDS_LENGTH: Advice = Advice {
    means: "a record's length is odd or below 4, so it is no record of GDSII",
    advice: "transfer the file again, or export it again as GDSII release 6 without compression",
};

/// `layout refused: gdsii kind at A`
pub(crate) const GDS_KIND: Advice = Advice {
    means: "a record's type is none of GDSII's",
    advice: "transfer the file again, or export it again as GDSII release 6 without compression",
};

/// `layout refused: gdsii size at A`
pub(crate) const GDS_SIZE: Advice = Advice {
    means: "a record's content hasn't the length of its kind",
    advice: "transfer the file again, or export it again as GDSII release 6 without compression",
};

/// `layout refused: gdsii order at A`
pub(crate) const GDS_ORDER: Advice = Advice {
    means: "a record can't be where it is",
    advice: "export the layout with another tool",
};

/// `layout refused: gdsii value at A rule 1`
pub(crate) const GDS_FORMAT: Advice = Advice {
    means: "the file's FORMAT isn't 0, the archive format",
    advice: "export it as a GDSII archive, not in filtered format",
};

/// `layout refused: gdsii value at A rule 2`
pub(crate) const GDS_NAME: Advice = Advice {
    means: "a cell's name hasn't 1 to 1,024 printable ASCII characters",
    advice: "rename the cell",
};

/// `layout refused: gdsii value at A rule 3`
pub(crate) const GDS_ABSOLUTE: Advice = Advice {
    means: "a placement has an absolute magnification or an absolute angle",
    advice: "place the cell with relative ones",
};

/// `layout refused: gdsii value at A rule 4`
pub(crate) const GDS_MAGNIFIED: Advice = Advice {
    means: "a placement's magnification isn't a whole number from 1 to 16",
    advice: "draw the cell in its size, or flatten the placement",
};

/// `layout refused: gdsii value at A rule 5`
pub(crate) const GDS_ANGLE: Advice = Advice {
    means: "a placement's angle isn't a multiple of 90 degrees from -360 to 360",
    advice: "turn it by a quarter turn, or flatten the placement",
};

/// `layout refused: gdsii value at A rule 6`
pub(crate) const GDS_COLUMNS: Advice = Advice {
    means: "an array hasn't 1 to 32,767 columns and rows",
    advice: "split the array",
};

/// `layout refused: gdsii value at A rule 7`
pub(crate) const GDS_PLACE: Advice = Advice {
    means: "a placement hasn't exactly one point",
    advice: "export the layout with another tool",
};

/// `layout refused: gdsii value at A rule 8`
pub(crate) const GDS_CORNERS: Advice = Advice {
    means: "an array hasn't exactly three points",
    advice: "export the layout with another tool",
};

/// `layout refused: gdsii value at A rule 9`
pub(crate) const GDS_PITCH: Advice = Advice {
    means: "the pitch of an array isn't a whole number of grid steps",
    advice: "choose a whole pitch, or place the cells one by one",
};

/// `layout refused: gdsii value at A rule 10`
pub(crate) const GDS_POINTS: Advice = Advice {
    means: "a polygon hasn't 4 to 8,191 points",
    advice: "split the polygon, or leave its layer out: `tools/readable LAYOUT` lists all such layers",
};

/// `layout refused: gdsii value at A rule 11`
pub(crate) const GDS_OPEN: Advice = Advice {
    means: "a polygon isn't closed: its last point isn't its first",
    advice: "close the polygon, or leave its layer out: `tools/readable LAYOUT` lists all such layers",
};

/// `layout refused: gdsii value at A rule 12`
pub(crate) const GDS_SLANTED: Advice = Advice {
    means: "a polygon has an edge at another angle than 0, 45 or 90 degrees",
    advice: "change the shape, or leave its layer out: `tools/readable LAYOUT` lists all such layers",
};

/// `layout refused: gdsii value at A rule 13`
pub(crate) const GDS_ENDS: Advice = Advice {
    means: "a path has ends of another kind than flush, half a width or given lengths, as round ones",
    advice: "change the path's ends, or leave its layer out: `tools/readable LAYOUT` lists all such layers",
};

/// `layout refused: gdsii value at A rule 14`
pub(crate) const GDS_PATH: Advice = Advice {
    means: "a path has a diagonal piece, turns back, is one point, or begins or ends with no length",
    advice: "make a polygon of it, or leave its layer out: `tools/readable LAYOUT` lists all such layers",
};

/// `layout refused: gdsii unit H`
pub(crate) const GDS_UNIT: Advice = Advice {
    means: "the file has another number of grid steps in a micrometre than the deck",
    advice: "give `unit` the file's number, and scale the deck's lengths by the same factor",
};

/// `layout refused: gdsii name at A repeats B`
pub(crate) const GDS_TWICE: Advice = Advice {
    means: "two cells have one name",
    advice: "rename one of the two",
};

/// `layout refused: gdsii tail at A`
pub(crate) const GDS_TAIL: Advice = Advice {
    means: "bytes other than 0 come after the end of the library",
    advice: "cut them off, or export the layout again",
};

/// `layout refused: no cell NAME`
pub(crate) const NO_TOP: Advice = Advice {
    means: "the file has no cell of the name that `top` gives",
    advice: "give `top` a cell of the file, as `tools/readable LAYOUT` tells them; upper and lower case differ",
};

/// `layout refused: cell NAME places unknown NAME`
pub(crate) const UNKNOWN_CELL: Advice = Advice {
    means: "a cell is placed that isn't in the file",
    advice: "export the layout with all cells that it refers to",
};

/// `layout refused: cycle NAMES`
pub(crate) const CYCLE: Advice = Advice {
    means: "each of some cells places the next, and the last places the first",
    advice: "take one of the placements out",
};

/// `layout refused: deep NAMES`
pub(crate) const DEEP: Advice = Advice {
    means: "cells are nested more than 64 deep",
    advice: "flatten some of them",
};

/// `layout refused: scale V NAMES`
pub(crate) const SCALE: Advice = Advice {
    means: "nested magnifications multiply to more than 16",
    advice: "flatten some of the cells, or draw them larger",
};

/// `layout refused: fixed width NAME scale V`
pub(crate) const FIXED: Advice = Advice {
    means: "a cell that has a path of absolute width is enlarged",
    advice: "give the path a width that scales",
};

/// `layout refused: extent V`
pub(crate) const EXTENT: Advice = Advice {
    means: "a shape reaches further than 1,073,741,824 half units from 0",
    advice: "move the layout",
};

/// `layout refused: count NAME V`
pub(crate) const COUNT: Advice = Advice {
    means: "a cell has more than 1,099,511,627,776 shapes when it is flattened",
    advice: "choose a smaller cell as `top`",
};

// The advice on a rule of values.
fn rule_advice(rule: u8) -> Advice {
    match rule {
        1 => GDS_FORMAT,
        2 => GDS_NAME,
        3 => GDS_ABSOLUTE,
        4 => GDS_MAGNIFIED,
        5 => GDS_ANGLE,
        6 => GDS_COLUMNS,
        7 => GDS_PLACE,
        8 => GDS_CORNERS,
        9 => GDS_PITCH,
        10 => GDS_POINTS,
        11 => GDS_OPEN,
        12 => GDS_SLANTED,
        13 => GDS_ENDS,
        _ => GDS_PATH,
    }
}

// The advice on a GDSII file's first fault.
fn gds_advice(bad: &GdsBad) -> Advice {
    match bad {
        GdsBad::Short(_) => GDS_SHORT,
        GdsBad::Length(_) => GDS_LENGTH,
        GdsBad::Kind(_) => GDS_KIND,
        GdsBad::Size(_) => GDS_SIZE,
        GdsBad::Order(_) => GDS_ORDER,
        GdsBad::Value(_, rule) => rule_advice(*rule),
        GdsBad::Tail(_) => GDS_TAIL,
        GdsBad::Unit(_) => GDS_UNIT,
        GdsBad::Twice(_, _) => GDS_TWICE,
    }
}

// The advice on a layout that is no tree of cells.
fn tree_advice(bad: &TreeBad) -> Advice {
    match bad {
        TreeBad::NoTop => NO_TOP,
        TreeBad::Unknown(_, _) => UNKNOWN_CELL,
        TreeBad::Cycle(_) => CYCLE,
        TreeBad::Deep(_) => DEEP,
        TreeBad::Scale(_, _) => SCALE,
        TreeBad::Fixed(_, _) => FIXED,
        TreeBad::Extent(_) => EXTENT,
        TreeBad::Count(_, _) => COUNT,
    }
}

/// The advice on a refused layout.
pub(crate) fn layout_advice(fault: &LayoutFault) -> Advice {
    match fault {
        LayoutFault::Long => LONG_LAYOUT,
        LayoutFault::Gds(bad) => gds_advice(bad),
        LayoutFault::Oas(bad) => oas_advice(bad),
        LayoutFault::Tree(bad) => tree_advice(bad),
    }
}
