//! The events of a bar that leans, and the laws, called once.
use crate::{Event, event_laws, row_list_laws, sorted_events, stop_laws};
use half_grid::{Edge, Line, Operand, Trap};
use std::test::Fail;

#[test]
fn events_of_a_bar(rt: HostRuntime) -> Result<(), Fail> {
    row_list_laws();
    stop_laws();
    event_laws();
    let bar = Trap::new(2, 6, Line::Rising(0), Line::Rising(4)).ok_or("no bar")?;
    let edges = [
        Edge::right_of(&bar, Operand::B),
        Edge::left_of(&bar, Operand::B),
    ];
    let events = sorted_events(rt.alloc(), &edges)?;
    let mut places = Vec::new(rt.alloc());
    for event in events.as_slice() {
        places.push((event.y, event.x, event.up))?;
    }
    let due = [
        (2i64, 2i64, true),
        (2, 10, false),
        (6, 6, false),
        (6, 14, true),
    ];
    assert_eq!(rt; places.as_slice(), due.as_slice());
    let first: Option<&Event> = events.first();
    let first = first.ok_or("no event")?;
    assert_eq!(rt; (first.line, first.operand), (Line::Rising(0), Operand::B));
    Ok(())
}
