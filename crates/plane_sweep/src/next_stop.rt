//! The next stop of a sweep.
ghost use Rattle.std.specs.Prelude.{◌≡◌};
ghost use Rattle.active_lines.specs.ActiveLists.{items};
ghost use Rattle.plane_sweep.specs.NextStops.{IsNextStop};

use crate::event::EventSource;
use crate::runs::Level;
use active_lines::ActiveLines;

/// A stop: its Y, and whether lines meet there.
#[derive(Clone, Copy)]
pub(crate) struct Stop {
    pub(crate) level: Level,
    pub(crate) meets: bool,
}

fn stop_at(y: i64, meets: bool) -> Stop
    ensures y { result.level.y ≡ y }
    ensures meets { result.meets ≡ meets }
{
    Stop {
        level: Level { y },
        meets,
    }
}

/// The next Y at which something happens: an event, or a meeting of neighbours.
pub(crate) fn next_stop<E: EventSource>(lines: &mut ActiveLines, events: &E) -> Option<Stop>
    ensures same { lines.new ≡ lines.old }
    ensures stop { IsNextStop (items lines.old) (E.left events.now) result }
{
    let meeting = lines.least_meeting();
    let Some(event) = events.first() else {
        let Some(y) = meeting else {
            return None;
        };
        return Some(stop_at(y, true));
    };
    let Some(y) = meeting else {
        return Some(stop_at(event.y, false));
    };
    if event.y < y {
        return Some(stop_at(event.y, false));
    }
    Some(stop_at(y, true))
}
