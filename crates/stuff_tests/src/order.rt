//! In which order a mesh is made and written: no file is opened before all slabs were surveyed, and no more lines
//! are made between two writes than those of a round, or of two where it is streamed.
use crate::rows::{cut, desk_of, field, number, words_of};
use desk_mem::MemDesk;
use st_base::{Desk, Failed, Gate, Port, Status};
use std::alloc::Global;
use std::process::Abort;
use std::sync::atomic::{AtomicU64, Ordering};
use std::thread::Threads;
use stuff::stuff;

// What a gate and a desk see together.
#[derive(Drop)]
struct Order {
    // How often the gate was passed; how often it was when Node and when Ele was opened, and at the last write.
    passed: AtomicU64,
    at_node: AtomicU64,
    at_ele: AtomicU64,
    at_write: AtomicU64,
    // How often it was passed between two writes, at most.
    most: AtomicU64,
}

impl Order {
    fn new() -> Order {
        Order {
            passed: AtomicU64::new(0),
            at_node: AtomicU64::new(0),
            at_ele: AtomicU64::new(0),
            at_write: AtomicU64::new(0),
            most: AtomicU64::new(0),
        }
    }

    fn opens(&self, port: Port) {
        let passed = self.passed.load(Ordering::SeqCst);
        self.at_write.store(passed, Ordering::SeqCst);
        match port {
            Port::Node => self.at_node.store(passed, Ordering::SeqCst),
            _ => self.at_ele.store(passed, Ordering::SeqCst),
        }
    }

    fn writes(&self) {
        let passed = self.passed.load(Ordering::SeqCst);
        let since = passed.wrapping_sub(self.at_write.load(Ordering::SeqCst));
        self.at_write.store(passed, Ordering::SeqCst);
        if since > self.most.load(Ordering::SeqCst) {
            self.most.store(since, Ordering::SeqCst);
        }
    }
}

impl Gate for Order {
    fn pass(&self, _worker: u32, _slab: u32) {
        self.passed.fetch_add(1, Ordering::SeqCst);
    }
}

// A desk in memory that tells when files are opened and written.
#[derive(Drop)]
struct Watched<'o> {
    desk: MemDesk,
    order: &'o Order,
}

impl Desk for Watched<'_> {
    ghost use Rattle.desk_mem.specs.Meanings.{mem_input, mem_ports, mem_tried, mem_held};

    ghost input = { λ watched. mem_input watched.desk };

    ghost ports = { λ watched. mem_ports watched.desk };

    ghost tried = { λ watched. mem_tried watched.desk };

    ghost held = { λ watched. mem_held watched.desk };

    fn open_input(&mut self, name: &[u8]) -> Result<(), Failed> {
        self.desk.open_input(name)
    }

    fn read(&mut self, into: &mut [u8]) -> Result<usize, Failed> {
        self.desk.read(into)
    }

    fn open_output(&mut self, port: Port, name: &[u8]) -> Result<(), Failed> {
        self.order.opens(port);
        self.desk.open_output(port, name)
    }

    fn write(&mut self, port: Port, bytes: &[u8]) -> Result<usize, Failed> {
        self.order.writes();
        self.desk.write(port, bytes)
    }

    fn finish(&mut self, port: Port) -> Result<(), Failed> {
        self.desk.finish(port)
    }
}

// Words, a head, samples; how often the gate was passed when the files were opened, between two writes at least and at
// most, and in all. A mesh passes it three times for each slab, a demo twice, a point once, and a command that makes no
// mesh never. A round has four slabs for each worker. Where a round is streamed while the next is made, up to two can
// be made between two writes.
const ORDERS: &[u8] = b"\
mesh a out level=0.5 workers=1 slab=1 | MET_UCHAR 1 1 16 | 01*16 | 18 | 4 | 4 | 54
mesh a out level=0.5 workers=3 slab=1 | MET_UCHAR 1 1 16 | 01*16 | 18 | 12 | 12 | 54
mesh a out level=0.5 workers=1 slab=2 | MET_UCHAR 1 1 16 | 01*16 | 9 | 4 | 4 | 27
mesh a out level=0.5 workers=1 slab=1 faces=yes | MET_UCHAR 1 1 16 | 01*16 | 18 | 4 | 4 | 54
stream a out level=0.5 workers=1 slab=1 | MET_UCHAR 1 1 16 | 01*16 | 18 | 4 | 8 | 54
stream a out level=0.5 workers=3 slab=1 | MET_UCHAR 1 1 16 | 01*16 | 18 | 12 | 18 | 54
mesh a out level=0.5 | MET_UCHAR 2 2 2 | 01*7 | 0 | 0 | 0 | 0
mesh b out level=0.5 | MET_UCHAR 2 2 2 | 01*8 | 0 | 0 | 0 | 0
stream b out level=0.5 | MET_UCHAR 2 2 2 | 01*8 | 0 | 0 | 0 | 0
count a level=0.5 | MET_UCHAR 1 1 16 | 01*16 | 0 | 0 | 0 | 0
probe a level=0.5 at=0,0,0 | MET_UCHAR 1 1 16 | 01*16 | 0 | 5 | 5 | 5
audit a | MET_UCHAR 1 1 16 | 01*16 | 0 | 0 | 0 | 0
demo size=16 seed=7 workers=1 slab=1 | plain | 01 | 0 | 36 | 36 | 36
";

// Carries out a row, and compares.
fn check<R: Threads + Sync + Abort>(rt: &R, alloc: Global, n: u32, row: &[u8]) {
    let (words, rest) = field(row);
    let (head, rest) = field(rest);
    let (samples, rest) = field(rest);
    let (opened, rest) = field(rest);
    let (least, rest) = field(rest);
    let (most, rest) = field(rest);
    let (all, _) = field(rest);
    let words = words_of(alloc, words).expect(rt, "memory");
    let order = Order::new();
    let desk = desk_of(alloc, head, samples).expect(rt, "memory");
    let mut watched = Watched {
        desk,
        order: &order,
    };
    stuff(rt, alloc, &words, &mut watched, &order);
    for (seen, wanted) in [
        (&order.at_node, opened),
        (&order.at_ele, opened),
        (&order.passed, all),
    ] {
        assert_eq!(rt; seen.load(Ordering::SeqCst), number(wanted), "in row {n}");
    }
    let seen = order.most.load(Ordering::SeqCst);
    assert!(rt; number(least) <= seen && seen <= number(most), "in row {n}");
}

#[test]
fn files_are_opened_late_and_written_round_by_round(rt: HostRuntime) {
    let mut rest = ORDERS;
    let mut n = 0u32;
    let alloc = rt.alloc();
    while !rest.is_empty() {
        let (row, behind) = cut(rest, b'\n');
        n = n.wrapping_add(1);
        check(&rt, alloc, n, row);
        rest = behind;
    }
}
