//! The writer writes while the workers work: a gate and a desk each wait for the other.
use crate::made::{plan_of, stream, survey_of};
use desk_mem::MemDesk;
use slab_work::rounds;
use small_images::phantom_field;
use st_base::{Desk, Failed, Gate, OpenGate, Port};
use std::sync::atomic::{AtomicU64, Ordering};
use std::test::*;

// A word of a gate and one of a desk: 0 before it is raised, 1 once it is, and 2 where all turns were spent after that.
#[derive(Drop)]
struct Words {
    gate: AtomicU64,
    desk: AtomicU64,
}

// Raises a word, and turns until the other is raised.
fn meet(own: &AtomicU64, other: &AtomicU64) {
    own.store(1, Ordering::SeqCst);
    for _ in 0..1_000_000_000u32 {
        if other.load(Ordering::SeqCst) != 0 {
            return;
        }
    }
    own.store(2, Ordering::SeqCst);
}

impl Gate for Words {
    // Slab 8 is the first of the second round of two workers.
    fn pass(&self, _worker: u32, slab: u32) {
        if slab == 8 {
            meet(&self.gate, &self.desk);
        }
    }
}

// A desk in memory that waits at the first write behind the first line.
#[derive(Drop)]
struct Watched<'w> {
    desk: MemDesk,
    words: &'w Words,
}

impl Desk for Watched<'_> {
    ghost use Rattle.desk_mem.specs.Meanings.{mem_input, mem_ports, mem_tried, mem_held};

    ghost input = { λ watched. mem_input watched.desk };

    ghost ports = { λ watched. mem_ports watched.desk };

    ghost tried = { λ watched. mem_tried watched.desk };

    ghost held = { λ watched. mem_held watched.desk };

    fn open_input(&mut self, name: &[u8]) -> Result<(), Failed> {
        self.desk.open_input(name)
    }

    fn read(&mut self, into: &mut [u8]) -> Result<usize, Failed> {
        self.desk.read(into)
    }

    fn open_output(&mut self, port: Port, name: &[u8]) -> Result<(), Failed> {
        self.desk.open_output(port, name)
    }

    fn write(&mut self, port: Port, bytes: &[u8]) -> Result<usize, Failed> {
        let is_first = self.words.desk.load(Ordering::SeqCst) == 0;
        if is_first && !self.desk.text(port).is_empty() {
            meet(&self.words.desk, &self.words.gate);
        }
        self.desk.write(port, bytes)
    }

    fn finish(&mut self, port: Port) -> Result<(), Failed> {
        self.desk.finish(port)
    }
}

// Where all is made before it is written, the gate spends its turns; where a round is written before the next is made,
// the desk.
#[test]
fn a_round_is_written_while_the_next_is_made(rt: HostRuntime) {
    let alloc = rt.alloc();
    let field = phantom_field(alloc, 15).expect(&rt, "a field");
    let plan = plan_of(2).expect(&rt, "a plan");
    let survey = survey_of(&rt, alloc, &field, plan).expect(&rt, "memory");
    assert_eq!(rt; survey.layout().slabs(), 17);
    assert_eq!(rt; rounds(survey.layout(), plan), 3);
    let mut plain = MemDesk::new(alloc);
    let wrote = stream(
        &rt,
        alloc,
        &survey,
        0,
        plan,
        &OpenGate,
        Port::Node,
        b"head\n",
        &mut plain,
    );
    assert!(rt; wrote.is_ok());
    let words = Words {
        gate: AtomicU64::new(0),
        desk: AtomicU64::new(0),
    };
    let mut watched = Watched {
        desk: MemDesk::new(alloc),
        words: &words,
    };
    let wrote = stream(
        &rt,
        alloc,
        &survey,
        0,
        plan,
        &words,
        Port::Node,
        b"head\n",
        &mut watched,
    );
    assert!(rt; wrote.is_ok());
    assert_eq!(rt; words.gate.load(Ordering::SeqCst), 1);
    assert_eq!(rt; words.desk.load(Ordering::SeqCst), 1);
    let text = plain.text(Port::Node);
    assert!(rt; text.len() > 1000);
    assert_eq!(rt; watched.desk.text(Port::Node), text);
}
