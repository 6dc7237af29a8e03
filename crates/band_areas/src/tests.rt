//! A triangle that is grown by one and a half bands, asked for band by band: in bands that are computed together, from below
//! and in another order, it has the lists of bands that are computed alone.
ghost use Rattle.std.specs.Prelude.{◌≡◌, ◌<◌, [], ◌∷◌, length};
ghost use Rattle.band_areas.specs.Parts.{AreAreasOf};
ghost use Rattle.layout_model.specs.Layouts.{IsShapeOnGrid, IsLayoutOnGrid};

use crate::{BandAreas, Strips};
use cell_tree::{Tree, resolve};
use deck_plan::Plan;
use deck_text::{Deck, read_deck};
use geo_stream::List;
use half_grid::{Point, Trap, Window};
use layout_model::{Cell, Counts, KeptShape, Layout, Name, Offsets, Pair, Shapes};
use std::alloc::Global;
use std::process::Abort;

const METAL: Pair = Pair {
    layer: 1,
    datatype: 0,
};

// In half units: 1,000 grid steps wide and high, rising to the right.
const TRIANGLE: [Point; 4] = [
    Point { x: 0, y: 0 },
    Point { x: 2000, y: 0 },
    Point { x: 2000, y: 2000 },
    Point { x: 0, y: 0 },
];

const PLACES: [Point; 1] = [Point { x: 0, y: 0 }];

const DECK: &[u8] = b"unit 1000\ntop TOP\nband 1024\nlayer A 1 0\ngrow G A 1536\nwrite G g 1 0\n";

fn only<T: Drop>(rt: &impl Abort, alloc: Global, item: T) -> List<T>
    ensures { result ≡ item ∷ [] }
{
    let mut list = List::new(alloc);
    assert!(rt; list.push(item).is_ok(), "memory");
    list
}

fn triangle(rt: &impl Abort, alloc: Global) -> KeptShape
    ensures { IsShapeOnGrid result }
{
    let places = Offsets::list(alloc, &PLACES).expect(rt, "memory");
    KeptShape::new(alloc, METAL, &TRIANGLE, places).expect(rt, "a shape")
}

fn only_shape(rt: &impl Abort, alloc: Global, shape: KeptShape) -> Shapes
    ensures { result ≡ shape ∷ [] }
{
    let mut shapes = Shapes::new(alloc);
    assert!(rt; shapes.push(shape).is_ok(), "memory");
    shapes
}

fn layout(rt: &impl Abort, alloc: Global) -> Layout
    ensures { IsLayoutOnGrid result }
{
    let shapes = only_shape(rt, alloc, triangle(rt, alloc));
    let cell = Cell {
        name: Name::new(alloc, b"TOP").expect(rt, "a name"),
        shapes,
        placements: List::new(alloc),
    };
    let counts = Counts {
        kept: 1,
        other: 0,
        texts: 0,
        nodes: 0,
        boxes: 0,
        properties: 0,
    };
    Layout {
        cells: only(rt, alloc, cell),
        counts,
    }
}

fn tree_for(rt: &impl Abort, alloc: Global, deck: &Deck) -> Tree {
    resolve(alloc, layout(rt, alloc), &deck.top).expect(rt, "a tree")
}

fn band_from(rt: &impl Abort, y0: i64) -> Window {
    assert!(rt; -8192 <= y0 && y0 <= 8192);
    Window::new(y0, y0 + 1024).expect(rt, "a window")
}

// The area in a band, which is the same where the band is computed alone.
fn area(
    rt: &impl Abort,
    alloc: Global,
    plan: &Plan,
    areas: &mut BandAreas,
    band: Window,
) -> Vec<Trap>
    requires output { 0 < length plan.now.deck.outputs }
    requires areas { AreAreasOf plan.now 0 areas.old }
    ensures { AreAreasOf plan.now 0 areas.new }
{
    assert!(rt; -8192 <= band.y0());
    assert!(rt; band.y0() < band.y1());
    assert!(rt; band.y1() <= 16384);
    let alone = plan.area(alloc, 0, band).expect(rt, "memory");
    let traps = areas.area(alloc, plan, 0, band).expect(rt, "memory");
    assert!(rt; traps.as_slice() == alone.as_slice(), "from {}", band.y0());
    traps
}

// Whether these are the trapezoids.
fn are(traps: &[Trap], wanted: &[[i64; 6]]) -> bool {
    traps.len() == wanted.len()
        && traps.iter().zip(wanted).all(|(trap, numbers)| {
            numbers
                == &[
                    trap.y0(),
                    trap.y1(),
                    trap.bottom_left(),
                    trap.bottom_right(),
                    trap.top_left(),
                    trap.top_right(),
                ]
        })
}

// A band of few trapezoids is one strip: nothing ends at its bottom, and then its whole list is given. Its first part is all
// of it.
#[test]
fn one_strip(rt: HostRuntime) {
    let alloc = rt.alloc();
    let deck = read_deck(alloc, DECK, "layout", "deck").expect(&rt, "a deck");
    let tree = tree_for(&rt, alloc, &deck);
    let plan = Plan::new(alloc, &deck, &tree).expect(&rt, "memory");
    assert!(rt; !plan.deck().outputs.as_slice().is_empty());
    let mut areas = BandAreas::new(alloc, &plan, 0);
    let band = band_from(&rt, 1024);
    assert!(rt; band.y0() == 1024 && band.y1() == 2048);
    let mut strips = Strips::new(alloc, band);
    let ended = strips
        .next(alloc, &mut areas, &plan, 0)
        .expect(&rt, "memory");
    assert!(rt; ended.expect(&rt, "a strip").is_empty());
    let list = strips
        .next(alloc, &mut areas, &plan, 0)
        .expect(&rt, "memory");
    let wanted = [
        [1024, 1536, -1536, 3536, -1536, 3536],
        [1536, 2048, -1536, 3536, -1024, 3536],
    ];
    assert!(rt; are(list.expect(&rt, "the list").as_slice(), &wanted));
    let none = strips
        .next(alloc, &mut areas, &plan, 0)
        .expect(&rt, "memory");
    assert!(rt; none.is_none());
    let part = areas.next_part(alloc, &plan, 0, band).expect(&rt, "memory");
    assert!(rt; part.rows == band && are(part.traps.as_slice(), &wanted));
}

#[test]
fn bands_together(rt: HostRuntime) {
    let alloc = rt.alloc();
    let deck = read_deck(alloc, DECK, "layout", "deck").expect(&rt, "a deck");
    let tree = tree_for(&rt, alloc, &deck);
    let plan = Plan::new(alloc, &deck, &tree).expect(&rt, "memory");
    assert!(rt; !plan.deck().outputs.as_slice().is_empty());
    let mut areas = BandAreas::new(alloc, &plan, 0);
    for y0 in [-2048, -1024, 0, 1024, 2048, 3072, 1024, -2048] {
        let traps = area(&rt, alloc, &plan, &mut areas, band_from(&rt, y0));
        if y0 == 1024 {
            let wanted = [
                [1024, 1536, -1536, 3536, -1536, 3536],
                [1536, 2048, -1536, 3536, -1024, 3536],
            ];
            assert!(rt; are(traps.as_slice(), &wanted));
        }
    }
}
