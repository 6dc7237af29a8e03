//! Each call at concrete types.
ghost use Rattle.geo_stream.specs.Refusals.{IfFault};
ghost use Rattle.geo_stream.specs.Stream.{HasList};
ghost use Rattle.std.specs.Prelude.{◌≡◌, ◌+◌, ◌≤◌, ◌/◌, IfOk};

use crate::{
    Flattened, FromSlice, Joined, List, Mapped, Merged, NoMemory, Refusal, Stream, gather,
};
use std::alloc::Global;

/// Whether the stream gives just these items, and then none.
fn gives<S: Stream<Item = u16> + Drop>(mut stream: S, wanted: &[u16]) -> bool
    requires { HasList S.stands_for stream }
{
    for item in wanted {
        if stream.next() != Some(*item) {
            return false;
        }
    }
    stream.next().is_none() && stream.next().is_none()
}

#[test]
fn each_stream_gives_its_list(rt: HostRuntime) {
    let none: [u16; 0] = [];
    let some: [u16; 3] = [7, 3, 7];
    assert!(rt; gives(FromSlice::new(&none), &[]));
    assert!(rt; gives(FromSlice::new(&some), &[7, 3, 7]));
    assert!(rt; !gives(FromSlice::new(&some), &[7, 3]));
    let joined = Joined::new(FromSlice::new(&some), FromSlice::new(&[1, 2]));
    assert!(rt; gives(joined, &[7, 3, 7, 1, 2]));
    let joined = Joined::new(FromSlice::new(&none), FromSlice::new(&some));
    assert!(rt; gives(joined, &[7, 3, 7]));
}

#[test]
fn a_mapped_stream_gives_the_answers(rt: HostRuntime) {
    let some: [u8; 3] = [7, 3, 255];
    let doubled = |item: u8| -> u16
        ensures { result ≡ item + item }
    { u16::from(item) + u16::from(item) };
    assert!(rt; gives(Mapped::new(FromSlice::new(&some), doubled), &[14, 6, 510]));
}

#[test]
fn streams_are_flattened_past_empty_ones(rt: HostRuntime) {
    let streams = [
        FromSlice::new(&[]),
        FromSlice::new(&[5]),
        FromSlice::new(&[]),
        FromSlice::new(&[]),
        FromSlice::new(&[6, 4]),
        FromSlice::new(&[]),
    ];
    assert!(rt; gives(Flattened::new(FromSlice::new(&streams)), &[5, 6, 4]));
}

#[test]
fn sorted_streams_are_merged(rt: HostRuntime) {
    let evens: [u16; 4] = [0, 2, 4, 4];
    let others: [u16; 3] = [1, 4, 5];
    assert!(rt; evens.is_sorted() && others.is_sorted());
    let merged = Merged::new(FromSlice::new(&evens), FromSlice::new(&others));
    assert!(rt; gives(merged, &[0, 1, 2, 4, 4, 4, 5]));
}

/// An item that is ordered by its key alone.
#[derive(Clone, Copy)]
#[derive_where(PartialEq, Eq, PartialOrd, Ord)]
struct Tagged {
    key: u16,
    #[derive_where(skip(EqHashOrd))]
    tag: u16,
}

#[test]
fn ties_come_from_the_first_stream_first(rt: HostRuntime) {
    let first = [
        Tagged { key: 1, tag: 10 },
        Tagged { key: 2, tag: 11 },
        Tagged { key: 2, tag: 12 },
    ];
    let second = [
        Tagged { key: 1, tag: 20 },
        Tagged { key: 2, tag: 21 },
        Tagged { key: 3, tag: 22 },
    ];
    assert!(rt; first.is_sorted() && second.is_sorted());
    let merged = Merged::new(FromSlice::new(&first), FromSlice::new(&second));
    let tags = Mapped::new(
        merged,
        |item: Tagged| -> u16
            ensures { result ≡ item.tag }
        { item.tag },
    );
    assert!(rt; gives(tags, &[10, 20, 11, 12, 21, 22]));
}

/// A vector with room, which is refused where memory runs out.
fn with_room(alloc: Global, room: usize) -> Result<Vec<u8>, NoMemory> {
    Ok(Vec::with_capacity(alloc, room)?)
}

#[test]
fn a_list_holds_what_was_pushed_and_changed(rt: HostRuntime) -> Result<(), NoMemory> {
    assert!(rt; with_room(rt.alloc(), 4)?.is_empty());
    let mut list = List::new(rt.alloc());
    assert!(rt; list.as_slice().is_empty());
    for item in [4u16, 1, 4] {
        list.push(item)?;
    }
    assert_eq!(rt; list.as_slice(), [4, 1, 4].as_slice());
    let all = gather(rt.alloc(), FromSlice::new(list.as_slice()))?;
    assert_eq!(rt; all.as_slice(), [4, 1, 4].as_slice());
    *list.item_mut(2) = 9;
    assert_eq!(rt; list.as_slice(), [4, 1, 9].as_slice());
    Ok(())
}

/// Half of an even number, for which memory is asked first.
fn half_of(number: u16, refused: bool) -> Result<u16, Refusal<u16>>
    ensures half { IfOk result (λ half. half ≡ number / 2) }
    ensures fault { IfFault result (λ fault. fault ≡ number) }
{
    if refused {
        Err(NoMemory)?;
    }
    if number % 2 == 1 {
        return Err(Refusal::Fault(number));
    }
    Ok(number / 2)
}

/// A quarter of a number, or the number that is odd.
fn quarter_of(number: u16) -> Result<u16, Refusal<u16>>
    ensures fault { IfFault result (λ fault. fault ≤ number) }
{
    let half = half_of(number, false)?;
    half_of(half, false)
}

#[test]
fn faults_and_memory_apart(rt: HostRuntime) {
    assert_eq!(rt; half_of(14, false), Ok(7));
    assert_eq!(rt; half_of(7, false), Err(Refusal::Fault(7)));
    assert_eq!(rt; half_of(7, true), Err(Refusal::NoMemory));
}
