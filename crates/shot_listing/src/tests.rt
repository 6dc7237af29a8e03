//! Listings by their text, and what is said of one where a call fails.
use crate::{MOST_SHOTS, say_listing};
use depot::MemDepot;
use half_grid::{Line, Trap};
use layout_model::Pair;
use std::alloc::Global;
use std::test::Fail;

const PAIR: Pair = Pair {
    layer: 1,
    datatype: 0,
};

fn square() -> Result<Trap, Fail> {
    Ok(Trap::new(0, 20, Line::Upright(0), Line::Upright(20)).ok_or("no square")?)
}

#[test]
fn one_square(rt: HostRuntime) -> Result<(), Fail> {
    let mut depot = MemDepot::new(rt.alloc());
    say_listing(&mut depot, 2000, Some(PAIR), &[square()?])?;
    let text = b"unit 2000\nlayer 1 0\n0 20 0 20 0 20\nshots 1 triangles 800\n";
    assert_eq!(rt; depot.said(), text.as_slice());
    Ok(())
}

#[test]
fn no_shots(rt: HostRuntime) -> Result<(), Fail> {
    let mut depot = MemDepot::new(rt.alloc());
    say_listing(&mut depot, 2000, None, &[])?;
    assert_eq!(rt;
        depot.said(),
        b"unit 2000\nshots 0 triangles 0\n".as_slice()
    );
    Ok(())
}

#[test]
fn slanted_and_negative(rt: HostRuntime) -> Result<(), Fail> {
    let slanted = Trap::new(0, 20, Line::Rising(0), Line::Upright(20)).ok_or("no triangle")?;
    let negative = Trap::new(-30, -20, Line::Upright(-7), Line::Falling(3)).ok_or("no shot")?;
    let pair = Pair {
        layer: u64::MAX,
        datatype: 10,
    };
    let mut depot = MemDepot::new(rt.alloc());
    say_listing(&mut depot, 2, Some(pair), &[slanted, negative])?;
    let text =
        b"unit 2\nlayer 18446744073709551615 10\n0 20 0 20 20 20\n-30 -20 -7 36 -7 26\nshots 2 triangles 1160\n";
    assert_eq!(rt; depot.said(), text.as_slice());
    Ok(())
}

#[test]
fn greatest_shot(rt: HostRuntime) -> Result<(), Fail> {
    let reach = half_grid::REACH;
    let whole = Trap::new(-reach, reach, Line::Upright(-reach), Line::Upright(reach));
    let mut depot = MemDepot::new(rt.alloc());
    say_listing(
        &mut depot,
        2_000_000,
        Some(PAIR),
        &[whole.ok_or("no shot")?],
    )?;
    let text =
        b"unit 2000000\nlayer 1 0\n-17592186044416 17592186044416 -17592186044416 17592186044416 -17592186044416 17592186044416\nshots 1 triangles 2475880078570760549798248448\n";
    assert_eq!(rt; depot.said(), text.as_slice());
    assert_eq!(rt; MOST_SHOTS, 1 << 28);
    Ok(())
}

// A listing of more bytes than the buffer holds, over a depot that moves one byte a call or not, and whose call of that
// number fails: what was said.
fn said_of_many(alloc: Global, short: bool, call: Option<u64>) -> Result<Vec<u8>, Fail> {
    let mut depot = MemDepot::new(alloc);
    if short {
        depot.short();
    }
    if let Some(call) = call {
        depot.fail_at(call)?;
    }
    let outcome = say_listing(&mut depot, 2000, Some(PAIR), &[square()?; 1000]);
    let said = depot.said().to_vec(alloc)?;
    if let Some(_call) = call {
        if outcome.is_ok() {
            return Err(Fail::from("a fault is forgotten"));
        }
    } else {
        outcome?;
    }
    Ok(said)
}

#[test]
fn longer_than_the_buffer(rt: HostRuntime) -> Result<(), Fail> {
    let whole = said_of_many(rt.alloc(), false, None)?;
    // 20 bytes before the shots, 15 for each, and 28 after them
    assert_eq!(rt; whole.len(), 20 + 1000 * 15 + 28);
    assert!(rt; whole.starts_with(b"unit 2000\nlayer 1 0\n0 20 0 20 0 20\n0 20 0 20 0 20\n"));
    assert!(rt; whole.ends_with(b"\n0 20 0 20 0 20\nshots 1000 triangles 800000\n"));
    let slowly = said_of_many(rt.alloc(), true, None)?;
    assert_eq!(rt; slowly, whole);
    Ok(())
}

#[test]
fn each_call_fails_in_turn(rt: HostRuntime) -> Result<(), Fail> {
    let whole = said_of_many(rt.alloc(), false, None)?;
    assert!(rt; said_of_many(rt.alloc(), false, Some(0))?.is_empty());
    let first = said_of_many(rt.alloc(), false, Some(1))?;
    assert!(rt; 8000 < first.len() && first.len() <= 8192);
    assert!(rt; whole.starts_with(&first));
    let slowly = said_of_many(rt.alloc(), true, Some(12345))?;
    assert_eq!(rt; slowly.len(), 12345);
    assert!(rt; whole.starts_with(&slowly));
    Ok(())
}
