//! Layout files, read from memory.

use crate::memory::{greatest_memory, system_time};
use crate::{layouts, records};
use gds_reader::read_gds;
use layout_model::Pair;
use oas_reader::read_oas;
use std::alloc::Global;
use std::io;
use std::time::Instant;

const WANTED: [Pair; 1] = [Pair {
    layer: 1,
    datatype: 0,
}];

/// Reads a GDSII file of this many squares, and prints its size and how long it took.
pub(crate) fn time_gds(rt: &HostRuntime, alloc: Global, count: u32) -> io::Result<()> {
    let Ok(bytes) = layouts::file(alloc, count) else {
        return println!(rt; "gds: want of memory");
    };
    let start = Instant::now(rt)?;
    let answer = read_gds(alloc, bytes.as_slice(), 1000, &WANTED);
    let milliseconds = start.elapsed(rt)?.as_millis();
    match answer {
        Ok(layout) => {
            let kept = layout.counts.kept;
            println!(rt;
                "gds: {} bytes, {kept} shapes, {milliseconds} ms, {} MB",
                bytes.len(),
                greatest_memory(rt)
            )
        }
        Err(_) => println!(rt; "gds: refused"),
    }
}

fn fields_of(is_whole: bool) -> &'static str {
    if is_whole {
        "all fields"
    } else {
        "places alone"
    }
}

// How many megabytes a second that is.
fn rate_of(bytes: usize, nanoseconds: u128) -> u128 {
    (bytes as u128).wrapping_mul(1000) / nanoseconds.max(1)
}

// Reads the records of so many rectangles, one by one, and prints their size and how long it took.
fn time_records(rt: &HostRuntime, alloc: Global, count: u32, is_whole: bool) -> io::Result<()> {
    let fields = fields_of(is_whole);
    let Ok(bytes) = records::rectangles(alloc, count, is_whole) else {
        return println!(rt; "oasis records, {fields}: want of memory");
    };
    let start = Instant::now(rt)?;
    let placed = records::placed(bytes.as_slice());
    let nanoseconds = start.elapsed(rt)?.as_nanos();
    println!(rt;
        "oasis records, {fields}: {} bytes, {placed} rectangles, {} ms, {} MB/s",
        bytes.len(),
        nanoseconds / 1_000_000,
        rate_of(bytes.len(), nanoseconds)
    )
}

// Reads the layout of a file of so many rectangles, and prints its size and how long it took.
fn time_file(rt: &HostRuntime, alloc: Global, count: u32, is_whole: bool) -> io::Result<()> {
    let fields = fields_of(is_whole);
    let Ok(bytes) = records::file(alloc, count, is_whole) else {
        return println!(rt; "oasis file, {fields}: want of memory");
    };
    let before = system_time(rt);
    let start = Instant::now(rt)?;
    let answer = read_oas(alloc, bytes.as_slice(), 1000, &WANTED);
    let nanoseconds = start.elapsed(rt)?.as_nanos();
    let in_system = system_time(rt).saturating_sub(before);
    match answer {
        Ok(layout) => {
            let kept = layout.counts.kept;
            println!(rt;
                "oasis file, {fields}: {} bytes, {kept} shapes, {} ms, of which {in_system} in the system, {} MB/s, {} MB",
                bytes.len(),
                nanoseconds / 1_000_000,
                rate_of(bytes.len(), nanoseconds),
                greatest_memory(rt)
            )
        }
        Err(_) => println!(rt; "oasis file, {fields}: refused"),
    }
}

/// Reads OASIS records of this many rectangles, and files of them: with all their fields, and with their places alone.
pub(crate) fn time_oasis(rt: &HostRuntime, alloc: Global, count: u32) -> io::Result<()> {
    time_records(rt, alloc, count, true)?;
    time_records(rt, alloc, count, false)?;
    // the smaller file first, since memory is the greatest so far
    time_file(rt, alloc, count, false)?;
    time_file(rt, alloc, count, true)
}
