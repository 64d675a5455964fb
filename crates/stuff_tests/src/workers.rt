//! How the workers of a mesh go: at the same time, and each layer made by one of them.

use crate::rows::{cut, desk_of, field, number, words_of};
use st_base::{Gate, OpenGate, Status};
use std::alloc::Global;
use std::process::Abort;
use std::sync::atomic::{AtomicU64, Ordering};
use std::thread::Threads;
use stuff::stuff;

const TURNS: u64 = 1_000_000_000;

// Holds slab 0 each time until slab 1 was passed as often, for at most so many turns.
#[derive(Drop)]
struct Holding {
    held: AtomicU64,
    passed: AtomicU64,
    spent: AtomicU64,
}

impl Holding {
    fn new() -> Holding {
        Holding {
            held: AtomicU64::new(0),
            passed: AtomicU64::new(0),
            spent: AtomicU64::new(0),
        }
    }

    fn wait(&self) {
        let before = self.held.fetch_add(1, Ordering::SeqCst);
        for _ in 0..TURNS {
            if self.passed.load(Ordering::SeqCst) > before {
                return;
            }
        }
        self.spent.store(1, Ordering::SeqCst);
    }
}

impl Gate for Holding {
    fn pass(&self, _worker: u32, slab: u32) {
        match slab {
            0 => self.wait(),
            1 => {
                self.passed.fetch_add(1, Ordering::SeqCst);
            }
            _ => {}
        }
    }
}

// A slab is surveyed, and then its lines of nodes and of tetrahedra are made.
#[test]
fn slabs_are_made_at_the_same_time(rt: HostRuntime) {
    let alloc = rt.alloc();
    let words = words_of(alloc, b"mesh a out level=-300 workers=2").expect(&rt, "memory");
    let mut desk = desk_of(alloc, b"MET_SHORT 64 64 64", b"box").expect(&rt, "memory");
    let gate = Holding::new();
    let outcome = stuff(&rt, alloc, &words, &mut desk, &gate);
    assert!(rt; outcome.status == Status::Done);
    assert_eq!(rt; gate.passed.load(Ordering::SeqCst), 3);
    assert_eq!(rt; gate.spent.load(Ordering::SeqCst), 0);
}

// Words, how many slabs the trace has, and how many layers were made at least and at most; nothing for no trace.
const TRACES: &[u8] = b"\
count a level=0.5
mesh a out level=0.5 workers=1 slab=1 | 3 | 5 | 5
mesh a out level=0.5 workers=1 | 1 | 5 | 5
mesh a out level=0.5 workers=8 slab=1 | 3 | 5 | 12
mesh a out level=1 workers=1 slab=1 | 3 | 5 | 5
demo size=1 seed=7 workers=1 slab=1 | 3 | 5 | 5
demo size=1 seed=7 workers=3 slab=1 | 3 | 5 | 12
mesh a out level=0.5 workers=1 slab=1 faces=yes | 3 | 5 | 5
stream a out level=0.5 workers=1 slab=1 | 3 | 5 | 5
stream a out level=0.5 workers=8 slab=1 | 3 | 5 | 12
probe a level=0.5 at=0,0,0 | 1 | 5 | 5
probe a level=0.5 at=0,0,-4097 | 1 | 5 | 5
audit a
mesh b out level=0.5
stream b out level=0.5
probe b level=0.5 at=0,0,0
";

// Carries out a row, and compares.
fn check<R: Threads + Sync + Abort>(rt: &R, alloc: Global, n: u32, row: &[u8]) {
    let (words, rest) = field(row);
    let (slabs, rest) = field(rest);
    let (least, rest) = field(rest);
    let (most, _) = field(rest);
    let words = words_of(alloc, words).expect(rt, "memory");
    let mut desk = desk_of(alloc, b"plain", b"01").expect(rt, "memory");
    let (found, made) = match stuff(rt, alloc, &words, &mut desk, &OpenGate).trace {
        Some(trace) => (trace.layout().slabs(), trace.made()),
        None => (0, 0),
    };
    assert_eq!(rt; u64::from(found), number(slabs), "in row {n}");
    let made = u64::from(made);
    assert!(rt; number(least) <= made && made <= number(most), "in row {n}");
}

#[test]
fn traces_tell_slabs_and_layers(rt: HostRuntime) {
    let mut rest = TRACES;
    let mut n = 0u32;
    let alloc = rt.alloc();
    while !rest.is_empty() {
        let (row, behind) = cut(rest, b'\n');
        n = n.wrapping_add(1);
        check(&rt, alloc, n, row);
        rest = behind;
    }
}
