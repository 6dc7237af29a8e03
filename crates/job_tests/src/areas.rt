//! The areas of a triangle and of what a deck makes of it and of two layers, worked out by hand.
ghost use Rattle.std.specs.Prelude.{◌≡◌, [], ◌∷◌};
ghost use Rattle.layout_model.specs.Layouts.{AreOffsets, IsShapeOnGrid, IsLayoutOnGrid};

use cell_tree::{Tree, resolve};
use deck_plan::Plan;
use deck_text::{Deck, read_deck};
use geo_stream::List;
use half_grid::{Point, Trap, Window};
use layout_model::{Cell, Counts, KeptShape, Layout, Name, Offsets, Pair, Shapes};
use std::alloc::Global;
use std::process::Abort;

// In half units: 11 grid steps wide and high, rising to the right.
const TRIANGLE: [Point; 4] = [
    Point { x: 0, y: 0 },
    Point { x: 22, y: 0 },
    Point { x: 22, y: 22 },
    Point { x: 0, y: 0 },
];

const PLACES: [Point; 1] = [Point { x: 0, y: 0 }];

const SQUARE: [Point; 5] = [
    Point { x: 0, y: 0 },
    Point { x: 16, y: 0 },
    Point { x: 16, y: 16 },
    Point { x: 0, y: 16 },
    Point { x: 0, y: 0 },
];

// Of two layers each square overlaps the other one, and both of the other layer.
const SECOND_PLACES: [Point; 2] = [Point { x: 0, y: 0 }, Point { x: 8, y: 8 }];

const THIRD_PLACES: [Point; 2] = [Point { x: 12, y: 4 }, Point { x: 16, y: 8 }];

const DECK: &[u8] = b"unit 1000\ntop TOP\nframe -2 -2 24 4\n\
layer A 1 0\nlayer N 9 0\nmirror B A 11\nxor Unused A N\n\
or O A B\nand C A B\nsub D B A\nxor X A B\ngrow E C 1\nshrink S A 2\ninvert I A\ngrow G A 4\nshrink K G 4\n\
mirror Y X 0\nsub M A N\nlayer P 2 0\nlayer Q 3 0\nsub R P Q\n\
write N n 1 0\nwrite O o 1 0\nwrite C c 1 0\nwrite D d 1 0\nwrite X x 1 0\nwrite E e 1 0\nwrite S s 1 0\n\
write I i 1 0\nwrite K k 1 0\nwrite Y y 1 0\nwrite M m 1 0\nwrite R r 1 0\n";

// The same but for an operand of a definition that no output uses.
const OTHER: &[u8] = b"unit 1000\ntop TOP\nframe -2 -2 24 4\n\
layer A 1 0\nlayer N 9 0\nmirror B A 11\nxor Unused A B\n\
or O A B\nand C A B\nsub D B A\nxor X A B\ngrow E C 1\nshrink S A 2\ninvert I A\ngrow G A 4\nshrink K G 4\n\
mirror Y X 0\nsub M A N\nlayer P 2 0\nlayer Q 3 0\nsub R P Q\n\
write N n 1 0\nwrite O o 1 0\nwrite C c 1 0\nwrite D d 1 0\nwrite X x 1 0\nwrite E e 1 0\nwrite S s 1 0\n\
write I i 1 0\nwrite K k 1 0\nwrite Y y 1 0\nwrite M m 1 0\nwrite R r 1 0\n";

// The places of outputs and definitions in the decks.
const N_OUT: usize = 0;

const O_OUT: usize = 1;

const C_OUT: usize = 2;

const D_OUT: usize = 3;

const X_OUT: usize = 4;

const E_OUT: usize = 5;

const S_OUT: usize = 6;

const I_OUT: usize = 7;

const K_OUT: usize = 8;

const Y_OUT: usize = 9;

const M_OUT: usize = 10;

const R_OUT: usize = 11;

/// The output, a band, and the trapezoids: lower and upper Y, two X below, two above.
type Row = (usize, i64, i64, &'static [[i64; 6]]);

const ROWS: [Row; 17] = [
    (N_OUT, -1024, 1024, &[]),
    (
        O_OUT,
        0,
        1024,
        &[
            [0, 11, 0, 22, 0, 22],
            [11, 22, 0, 11, 0, 0],
            [11, 22, 11, 22, 22, 22],
        ],
    ),
    (C_OUT, 0, 1024, &[[0, 11, 0, 22, 11, 11]]),
    (
        D_OUT,
        0,
        1024,
        &[[0, 11, 0, 0, 0, 11], [11, 22, 0, 11, 0, 0]],
    ),
    (
        X_OUT,
        0,
        1024,
        &[
            [0, 11, 0, 0, 0, 11],
            [0, 11, 22, 22, 11, 22],
            [11, 22, 0, 11, 0, 0],
            [11, 22, 11, 22, 22, 22],
        ],
    ),
    (E_OUT, -1024, 0, &[[-1, 0, -1, 23, -1, 23]]),
    (
        E_OUT,
        0,
        1024,
        &[[0, 1, -1, 23, -1, 23], [1, 12, -1, 23, 10, 12]],
    ),
    (S_OUT, 0, 1024, &[[2, 16, 6, 20, 20, 20]]),
    (I_OUT, -1024, 0, &[[-2, 0, -2, 24, -2, 24]]),
    (
        I_OUT,
        0,
        1024,
        &[[0, 4, -2, 0, -2, 4], [0, 4, 22, 24, 22, 24]],
    ),
    // grown and shrunk again, in bands that end inside of it
    (K_OUT, -1024, 8, &[[0, 8, 0, 22, 8, 22]]),
    (K_OUT, 8, 12, &[[8, 12, 8, 22, 12, 22]]),
    (K_OUT, 12, 1024, &[[12, 22, 12, 22, 22, 22]]),
    (K_OUT, 22, 1024, &[]),
    // two trapezoids with one top change places
    (
        Y_OUT,
        0,
        1024,
        &[
            [0, 11, -22, -22, -22, -11],
            [0, 11, 0, 0, -11, 0],
            [11, 22, -22, -11, -22, -22],
            [11, 22, -11, 0, 0, 0],
        ],
    ),
    // the list of the layer, as it is
    (M_OUT, 0, 1024, &[[0, 22, 0, 22, 22, 22]]),
    // where two squares of one layer lie over one of the other, nothing is left of them
    (
        R_OUT,
        0,
        1024,
        &[
            [0, 4, 0, 16, 0, 16],
            [4, 16, 0, 12, 0, 12],
            [16, 20, 8, 12, 8, 12],
            [20, 24, 8, 16, 8, 16],
        ],
    ),
];

fn only<T: Drop>(rt: &impl Abort, alloc: Global, item: T) -> List<T>
    ensures { result ≡ item ∷ [] }
{
    let mut list = List::new(alloc);
    assert!(rt; list.push(item).is_ok(), "memory");
    list
}

fn three_shapes(
    rt: &impl Abort,
    alloc: Global,
    first: KeptShape,
    second: KeptShape,
    third: KeptShape,
) -> Shapes
    ensures { result ≡ first ∷ second ∷ third ∷ [] }
{
    let mut shapes = Shapes::new(alloc);
    assert!(rt; shapes.push(first).is_ok(), "memory");
    assert!(rt; shapes.push(second).is_ok(), "memory");
    assert!(rt; shapes.push(third).is_ok(), "memory");
    shapes
}

fn triangle(rt: &impl Abort, alloc: Global) -> KeptShape
    ensures { IsShapeOnGrid result }
{
    let pair = Pair {
        layer: 1,
        datatype: 0,
    };
    let places = Offsets::list(alloc, &PLACES).expect(rt, "memory");
    KeptShape::new(alloc, pair, &TRIANGLE, places).expect(rt, "a shape")
}

fn squares(rt: &impl Abort, alloc: Global, layer: u64, places: &[Point]) -> KeptShape
    requires { AreOffsets places.now }
    ensures { IsShapeOnGrid result }
{
    let pair = Pair { layer, datatype: 0 };
    let places = Offsets::list(alloc, places).expect(rt, "memory");
    KeptShape::new(alloc, pair, &SQUARE, places).expect(rt, "a shape")
}

fn layout(rt: &impl Abort, alloc: Global) -> Layout
    ensures { IsLayoutOnGrid result }
{
    let shapes = three_shapes(
        rt,
        alloc,
        triangle(rt, alloc),
        squares(rt, alloc, 2, &SECOND_PLACES),
        squares(rt, alloc, 3, &THIRD_PLACES),
    );
    let cell = Cell {
        name: Name::new(alloc, b"TOP").expect(rt, "a name"),
        shapes,
        placements: List::new(alloc),
    };
    let counts = Counts {
        kept: 3,
        other: 0,
        texts: 0,
        nodes: 0,
        boxes: 0,
        properties: 0,
    };
    Layout {
        cells: only(rt, alloc, cell),
        counts,
    }
}

fn tree_for(rt: &impl Abort, alloc: Global, deck: &Deck) -> Tree {
    resolve(alloc, layout(rt, alloc), &deck.top).expect(rt, "a tree")
}

fn band_of(rt: &impl Abort, y0: i64, y1: i64) -> Window {
    Window::new(y0, y1).expect(rt, "a window")
}

// The area of an output in a band.
fn area(rt: &impl Abort, alloc: Global, plan: &Plan, output: usize, band: Window) -> Vec<Trap> {
    assert!(rt; output < plan.deck().outputs.as_slice().len());
    assert!(rt; -8_388_608 <= band.y0());
    assert!(rt; band.y0() < band.y1());
    assert!(rt; band.y1() <= 8_388_608);
    plan.area(alloc, output, band).expect(rt, "memory")
}

// Whether these are the trapezoids.
fn are(traps: &[Trap], wanted: &[[i64; 6]]) -> bool {
    traps.len() == wanted.len()
        && traps.iter().zip(wanted).all(|(trap, numbers)| {
            numbers
                == &[
                    trap.y0(),
                    trap.y1(),
                    trap.bottom_left(),
                    trap.bottom_right(),
                    trap.top_left(),
                    trap.top_right(),
                ]
        })
}

fn all_rows_hold(rt: &impl Abort, alloc: Global, deck: &[u8], rows: &[Row]) {
    assert!(rt; deck.len() <= 65_536);
    let deck = read_deck(alloc, deck, "layout", "deck").expect(rt, "a deck");
    let tree = tree_for(rt, alloc, &deck);
    let plan = Plan::new(alloc, &deck, &tree).expect(rt, "memory");
    for (output, y0, y1, wanted) in rows {
        let traps = area(rt, alloc, &plan, *output, band_of(rt, *y0, *y1));
        assert!(rt; are(traps.as_slice(), wanted), "output {output} from {y0}");
    }
}

#[test]
fn areas_in_bands(rt: HostRuntime) {
    all_rows_hold(&rt, rt.alloc(), DECK, &ROWS);
    all_rows_hold(&rt, rt.alloc(), OTHER, &ROWS);
}
