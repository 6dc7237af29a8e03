//! Trapezoids to be united.

use half_grid::{Line, Trap};
use std::alloc::{AllocError, Global};

// Puts the rectangle, where it has an area and lies within reach.
fn put(traps: &mut Vec<Trap>, x: i64, y: i64, width: i64, height: i64) -> Result<(), AllocError> {
    let right = Line::Upright(x.saturating_add(width));
    if let Some(trap) = Trap::new(y, y.saturating_add(height), Line::Upright(x), right) {
        traps.push(trap)?;
    }
    Ok(())
}

/// A square array of squares: 10 half units wide, 20 apart.
pub(crate) fn squares(alloc: Global, side: u32) -> Result<Vec<Trap>, AllocError> {
    let mut traps = Vec::new(alloc);
    for row in 0..side {
        for column in 0..side {
            put(
                &mut traps,
                20 * i64::from(column),
                20 * i64::from(row),
                10,
                10,
            )?;
        }
    }
    Ok(traps)
}

// The next of a row of numbers that look random (the constants of Knuth's MMIX generator).
fn next(state: u64) -> u64 {
    state
        .wrapping_mul(6_364_136_223_846_793_005)
        .wrapping_add(1_442_695_040_888_963_407)
}

// A number below the bound from the high bits of a state.
fn below(state: u64, bound: u32) -> i64 {
    if bound == 0 {
        return 0;
    }
    i64::from(((state >> 33) as u32) % bound)
}

/// Random rectangles of up to 400 half units a side, on an area that gives each about as much room as it takes.
pub(crate) fn rectangles(alloc: Global, count: u32) -> Result<Vec<Trap>, AllocError> {
    let side = count.isqrt().saturating_mul(400).saturating_add(1);
    let mut traps = Vec::new(alloc);
    let mut state = 1u64;
    for _ in 0..count {
        let x = next(state);
        let y = next(x);
        let width = next(y);
        let height = next(width);
        state = height;
        put(
            &mut traps,
            below(x, side),
            below(y, side),
            below(width, 398).saturating_add(2),
            below(height, 398).saturating_add(2),
        )?;
    }
    Ok(traps)
}

/// So many tall rectangles side by side, each a little higher than the one before, so that all are alive at once.
pub(crate) fn comb(alloc: Global, count: u32) -> Result<Vec<Trap>, AllocError> {
    let mut traps = Vec::new(alloc);
    for k in 0..count {
        put(
            &mut traps,
            20 * i64::from(k),
            2 * i64::from(k),
            10,
            4 * i64::from(count),
        )?;
    }
    Ok(traps)
}

/// So many upright bars, and as many level ones across them.
pub(crate) fn hatch(alloc: Global, count: u32) -> Result<Vec<Trap>, AllocError> {
    let side = 20 * i64::from(count);
    let mut traps = Vec::new(alloc);
    for k in 0..count {
        let at = 20 * i64::from(k);
        put(&mut traps, at, 0, 10, side)?;
        put(&mut traps, 0, at, side, 10)?;
    }
    Ok(traps)
}

/// So many squares round one point, each larger than the one before.
pub(crate) fn pile(alloc: Global, count: u32) -> Result<Vec<Trap>, AllocError> {
    let mut traps = Vec::new(alloc);
    for k in 0..count {
        let half = i64::from(k).saturating_add(1);
        put(
            &mut traps,
            0i64.saturating_sub(half),
            0i64.saturating_sub(half),
            half.saturating_mul(2),
            half.saturating_mul(2),
        )?;
    }
    Ok(traps)
}

/// Random rectangles, and a hundredth as many upright wires over all of them.
pub(crate) fn wires(alloc: Global, count: u32) -> Result<Vec<Trap>, AllocError> {
    let mut traps = rectangles(alloc, count)?;
    let side = i64::from(count.isqrt())
        .saturating_mul(400)
        .saturating_add(1);
    let many = count / 100;
    for k in 0..many {
        let x = side.saturating_mul(i64::from(k)) / i64::from(many.max(1));
        put(&mut traps, x, 0, 20, side)?;
    }
    Ok(traps)
}

/// So many wires side by side that go up to the right at 45 degrees, each twice as high as all of them are wide, and each a
/// little higher than the one before.
pub(crate) fn leaning(alloc: Global, count: u32) -> Result<Vec<Trap>, AllocError> {
    let mut traps = Vec::new(alloc);
    for k in 0..count {
        let k = i64::from(k);
        let low = k.saturating_mul(2);
        let high = low.saturating_add(40i64.saturating_mul(i64::from(count)));
        let left = Line::Rising(10i64.saturating_mul(k));
        let right = Line::Rising(10i64.saturating_mul(k).saturating_add(4));
        if let Some(trap) = Trap::new(low, high, left, right) {
            traps.push(trap)?;
        }
    }
    Ok(traps)
}

/// Level wires with jogs, this many corners in all: each wire is a row of five hundred rectangles, each a little higher
/// or lower than the one before.
pub(crate) fn jogs(alloc: Global, corners: u32) -> Result<Vec<Trap>, AllocError> {
    let mut traps = Vec::new(alloc);
    let mut state = 2u64;
    let mut x = 0i64;
    let mut y = 0i64;
    for k in 0..corners / 4 {
        if k % 500 == 0 {
            x = 0;
            y = 800i64.saturating_mul(i64::from(k / 500));
        }
        let width = next(state);
        let jog = next(width);
        state = jog;
        let step = below(width, 200).saturating_add(100);
        put(&mut traps, x, y, step, 400)?;
        x = x.saturating_add(step);
        y = y.saturating_add(below(jog, 81)).saturating_sub(40);
    }
    Ok(traps)
}

/// The same wires, of each the first rectangle, then of each the second, and so on: none is next to its neighbours in
/// the list.
pub(crate) fn mixed(alloc: Global, corners: u32) -> Result<Vec<Trap>, AllocError> {
    let wires = jogs(alloc, corners)?;
    let mut traps = Vec::new(alloc);
    for k in 0..500 {
        for trap in wires.iter().skip(k).step_by(500) {
            traps.push(*trap)?;
        }
    }
    Ok(traps)
}

// A random line through about this X in the rows from about this Y on: upright, or a slanted one.
fn line_by(state: u64, x: i64, y: i64) -> Line {
    match below(state, 3) {
        0 => Line::Upright(x),
        1 => Line::Rising(x.saturating_sub(y) / 2),
        _ => Line::Falling(x.saturating_add(y) / 2),
    }
}

/// So many random trapezoids with upright and slanted sides, and the number from which the next are made. They lie on
/// few X and few Y, so that corners and sides often meet.
pub(crate) fn slanted(
    alloc: Global,
    count: u32,
    from: u64,
) -> Result<(Vec<Trap>, u64), AllocError> {
    let mut traps = Vec::new(alloc);
    let mut state = from;
    for _ in 0..count {
        let x = next(state);
        let y = next(x);
        let width = next(y);
        let height = next(width);
        let left = next(height);
        let right = next(left);
        state = right;
        let low = below(y, 900);
        let start = below(x, 400);
        let end = start.saturating_add(below(width, 40));
        let trap = Trap::new(
            low,
            low.saturating_add(below(height, 80)).saturating_add(1),
            line_by(left, start, low),
            line_by(right, end, low),
        );
        if let Some(trap) = trap {
            traps.push(trap)?;
        }
    }
    Ok((traps, state))
}
