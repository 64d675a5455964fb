ghost use Rattle.std.specs.Prelude.{◌≡◌, ◌≤◌, IfSome, replicate};
ghost use Rattle.definitions.specs.Lattice.{dims};
ghost use Rattle.slab_core.specs.States.{new_core};

use bcc_lattice::Layout;
use slab_core::{Core, Event};
use st_base::Dims;
use std::alloc::Global;
use table_lines::{cut, number};

// How many workers there are, how many events happen, how many there are of each kind, and the events in order.
// An event is a letter, its worker, and the layer, the slab, or the first and the last of the ids that it is about.
// The letters, in the order of the counts: C for Claim, L Look, P Put, U Raise, R Read, F Finish, Q Quit.
const SCRIPTS: &[u8] = b"\
1|1|1 0 0 0 1 0 0|C 0,R 0 0
1|2|1 1 0 1 0 0 0|C 0,L 0 0,U 0 0
1|4|5 0 0 0 0 0 0|C 0,C 0,C 0,C 0,C 0
1|0|1 0 0 0 0 0 0|C 1
1|60|4 12 35 5 0 3 1|C 0,L 0 0,P 0 0 8,U 0 0,L 0 1,P 0 9 12,U 0 1,L 0 2,P 0 13 21,U 0 2,L 0 3,P 0 22 25,U 0 3,F 0 0,C 0,L 0 0,L 0 1,L 0 2,L 0 3,L 0 4,P 0 26 34,U 0 4,F 0 1,C 0,L 0 2,L 0 3,L 0 4,F 0 2,C 0,Q 0
2|24|2 2 18 2 0 0 0|C 0,C 1,L 0 0,L 1 0,P 0 0 8,U 0 0,P 1 0 8,U 1 0
";

/// The core of an image of one sample in slabs of two layers: five layers of 9, 4, 9, 4 and 9 vertices, in three slabs.
pub fn start(alloc: Global, workers: u32) -> Option<Core>
    requires some { 1 ≤ workers }
    requires few { workers ≤ 64 }
    ensures { IfSome result (λ c. c ≡ new_core (dims 1 1 1) 1 (replicate 35 1) workers) }
{
    let dims = Dims {
        nx: 1,
        ny: 1,
        nz: 1,
    };
    let layout = Layout { dims, slab: 1 };
    Core::new(alloc, &layout, &[1; 35], workers).ok()
}

fn push_word(events: &mut Vec<Event>, word: &[u8]) -> Option<()> {
    let (kind, word) = cut(word, b' ');
    let (worker, word) = cut(word, b' ');
    let (first, last) = cut(word, b' ');
    let w = number(worker);
    let at = number(first);
    let event = match kind.first() {
        Some(b'C') => Event::Claim { w },
        Some(b'L') => Event::Look { w, h: at },
        Some(b'U') => Event::Raise { w, h: at },
        Some(b'R') => Event::Read { w, id: at },
        Some(b'F') => Event::Finish { w, slab: at },
        Some(b'Q') => Event::Quit { w },
        _ => return push_puts(events, w, at, number(last)),
    };
    events.push(event).ok()
}

fn push_puts(events: &mut Vec<Event>, w: u32, first: u32, last: u32) -> Option<()> {
    for id in first..last.wrapping_add(1) {
        events.push(Event::Put { w, id }).ok()?;
    }
    Some(())
}

fn events_of(alloc: Global, script: &[u8]) -> Option<Vec<Event>> {
    let mut events = Vec::new(alloc);
    let mut rest = script;
    while !rest.is_empty() {
        let (word, behind) = cut(rest, b',');
        push_word(&mut events, word)?;
        rest = behind;
    }
    Some(events)
}

fn kinds_of(events: &[Event]) -> [u32; 7] {
    let mut kinds = [0u32; 7];
    for event in events {
        let kind = match event {
            Event::Claim { .. } => 0,
            Event::Look { .. } => 1,
            Event::Put { .. } => 2,
            Event::Raise { .. } => 3,
            Event::Read { .. } => 4,
            Event::Finish { .. } => 5,
            Event::Quit { .. } => 6,
        };
        kinds[kind] = kinds[kind].wrapping_add(1);
    }
    kinds
}

fn are_written(kinds: [u32; 7], text: &[u8]) -> bool {
    let mut rest = text;
    for kind in kinds {
        let (count, behind) = cut(rest, b' ');
        if number(count) != kind {
            return false;
        }
        rest = behind;
    }
    rest.is_empty()
}

fn answer(alloc: Global, workers: u32, events: &[Event]) -> Option<usize> {
    if workers < 1 || workers > 64 {
        return None;
    }
    let mut core = start(alloc, workers)?;
    core.run(events).ok()
}

#[test]
fn scripts_run_up_to_what_is_not_allowed(rt: HostRuntime) {
    let mut rest = SCRIPTS;
    while !rest.is_empty() {
        let (line, behind) = cut(rest, b'\n');
        let (workers, line) = cut(line, b'|');
        let (wanted, line) = cut(line, b'|');
        let (kinds, script) = cut(line, b'|');
        let events = events_of(rt.alloc(), script).expect(&rt, "memory");
        assert!(rt; are_written(kinds_of(events.as_slice()), kinds));
        let happened = answer(rt.alloc(), number(workers), events.as_slice());
        assert_eq!(rt; happened, Some(number(wanted) as usize));
        rest = behind;
    }
}

#[test]
fn has_no_second_worker(rt: HostRuntime) {
    let mut core = start(rt.alloc(), 1).expect(&rt, "memory");
    core.holds();
    assert_eq!(rt; core.step(Event::Claim { w: 1 }).ok(), Some(false));
    assert_eq!(rt; core.step(Event::Claim { w: 0 }).ok(), Some(true));
}
