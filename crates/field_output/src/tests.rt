//! What is answered of stripes, worked out by hand.
use crate::{Stripes, write_stripes};
use depot::MemDepot;
use field_split::{Fields, stripes, too_wide};
use half_grid::{Line, Trap};
use layout_model::Pair;
use shot_writer::{Head, Sums};
use std::alloc::Global;
use std::process::Abort;

const HEAD: Head = Head {
    unit: 2000,
    pair: Pair {
        layer: 1,
        datatype: 0,
    },
};

// The files of the shots, where fields are 16 wide and high.
fn split(rt: &impl Abort, alloc: Global, depot: &mut MemDepot, shots: &[Trap]) -> Stripes {
    let fields = Fields::new(16).expect(rt, "a size");
    match too_wide(shots) {
        None => {}
        Some(_) => panic!(rt; "a shot past reach"),
    }
    assert!(rt; shots.len() <= 100);
    let span = stripes(shots, &fields).expect(rt, "stripes");
    assert!(rt; -1_000 < span.0);
    assert!(rt; span.1 < 1_000);
    write_stripes(alloc, depot, "s", HEAD, shots, &fields, span).expect(rt, "memory")
}

#[test]
fn a_square_corner_over_two_stripes(rt: HostRuntime) {
    let shot = Trap::new(0, 20, Line::Rising(0), Line::Upright(20)).expect(
        &rt,
        "a legal trapezoid",
    );
    let mut depot = MemDepot::new(rt.alloc());
    let written = split(&rt, rt.alloc(), &mut depot, &[shot]);
    let each = written.each.as_slice();
    assert_eq!(rt; each.len(), 2);
    assert_eq!(rt; each[0].number, 0);
    assert_eq!(rt;
        each[1].sums,
        Sums {
            shots: 1,
            triangles: 16
        }
    );
    assert_eq!(rt;
        written.all,
        Sums {
            shots: 3,
            triangles: 400
        }
    );
}
