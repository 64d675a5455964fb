ghost use Rattle.std.specs.Prelude.{◌≡◌, ◌≤◌, IfSome};

use bcc_lattice::{Layout, vertex_count, vertex_of};
use command_line::Plan;
use layer_cells::Cells;
use mesh_lists::build_mesh;
use samples::Field;
use slab_survey::make_layer;
use small_images::{one_sample, phantom_field};
use snap_rule::{Shares, States, all_states};
use st_base::{Gate, Ledger, OpenGate, Tally};
use std::alloc::Global;
use std::sync::atomic::{AtomicBool, AtomicU64, Ordering};
use std::test::*;
use std::thread::Threads;
use survey::{Survey, survey};

#[test]
fn a_layer_is_seen_once_it_is_made(rt: HostRuntime) {
    let alloc = rt.alloc();
    let (Some(field), Some(shares)) = (one_sample(alloc), Shares::new(1023, 1687)) else {
        panic!(rt; "no field")
    };
    let layout = Layout {
        dims: field.dims(),
        slab: 1,
    };
    let Ok((cells, mut seat)) = Cells::new(alloc, layout, &field, shares) else {
        panic!(rt; "no memory")
    };
    assert!(rt; layout.layer_len(0) < 1000);
    assert!(rt; layout.dims.nx < 2);
    let mut tally = Tally::new();
    if cells.look(&mut seat, 0) {
        panic!(rt; "nobody made layer 0");
    }
    make_layer(
        &field,
        shares,
        &cells,
        0,
        &mut [0; 3],
        &mut seat,
        &mut tally,
    );
    assert!(rt; cells.look(&mut seat, 0));
    assert_eq!(rt; tally.count(), 9);
}

fn sum_of(ledgers: &[Tally]) -> u64 {
    let mut sum = 0u64;
    for ledger in ledgers {
        sum = sum.wrapping_add(ledger.count());
    }
    sum
}

// The survey of a field by so many workers, in slabs of two layers and with the usual shares; and their ledgers.
fn survey_by<'f, G: Gate + Sync, R: Threads + Sync>(
    rt: &R,
    alloc: Global,
    field: &'f Field,
    workers: u32,
    gate: &G,
) -> Option<(Survey<'f>, Vec<Tally>)>
    requires low { 1 ≤ workers }
    requires high { workers ≤ 64 }
    ensures { IfSome result (λ r. r.0.subject.field ≡ field.now) }
{
    let shares = Shares::new(1023, 1687)?;
    let _ = vertex_count(field.dims());
    let plan = Plan { workers, slab: 1 };
    let Ok(ledgers) = Vec::from_elem(alloc, Tally::new(), workers as usize) else {
        return None;
    };
    match survey(rt, alloc, field, shares, plan, gate, ledgers) {
        Ok(done) => Some(done),
        Err(_) => None,
    }
}

#[test]
fn a_survey_by_one_worker(rt: HostRuntime) {
    let alloc = rt.alloc();
    let field = one_sample(alloc).expect(&rt, "a field");
    let Some((done, ledgers)) = survey_by(&rt, alloc, &field, 1, &OpenGate) else {
        panic!(rt; "no memory")
    };
    assert_eq!(rt; done.made(), 5);
    assert_eq!(rt; done.layout().slabs(), 3);
    assert_eq!(rt; done.offsets().nodes(), 15);
    assert_eq!(rt; done.offsets().tets(), 24);
    let counts: [u64; 1] = [ledgers.as_slice().first().map_or(0, |l| l.count())];
    assert_eq!(rt; counts, [35]);
}

// Whether the survey has these states.
fn has_states(survey: &Survey, all: &States) -> bool
    requires { all.now.dims ≡ survey.now.subject.field.dims }
{
    let states = survey.states();
    for id in 0..vertex_count(states.dims()) {
        let Some(v) = vertex_of(states.dims(), id) else {
            return false;
        };
        if states.state(v) != all.state(v) {
            return false;
        }
    }
    true
}

#[test]
fn a_survey_by_three_workers(rt: HostRuntime) {
    let alloc = rt.alloc();
    let (Some(field), Some(shares)) = (phantom_field(alloc, 12), Shares::new(1023, 1687)) else {
        panic!(rt; "no field")
    };
    let vertices = vertex_count(field.dims());
    let Some((done, ledgers)) = survey_by(&rt, alloc, &field, 3, &OpenGate) else {
        panic!(rt; "no memory")
    };
    let (Ok(mesh), Ok(all)) = (
        build_mesh(alloc, &field, shares),
        all_states(alloc, &field, shares, &mut Tally::new()),
    ) else {
        panic!(rt; "no memory")
    };
    assert!(rt; has_states(&done, &all));
    assert_eq!(rt; done.offsets().nodes() as usize, mesh.places().len());
    assert_eq!(rt; done.offsets().tets() as usize, mesh.tets().len());
    assert!(rt; 27 <= done.made() && done.made() <= 79);
    assert!(rt; u64::from(vertices) <= sum_of(ledgers.as_slice()));
    let trace = done.into_trace();
    assert_eq!(rt; trace.layout().slabs(), 14);
}

// Holds slab 0 until slab 1 is passed, for so many turns at most, and remembers whether it was.
#[derive(Drop)]
struct Meeting {
    passed: AtomicBool,
    met: AtomicBool,
}

impl Gate for Meeting {
    fn pass(&self, _worker: u32, slab: u32) {
        if slab == 1 {
            self.passed.store(true, Ordering::SeqCst);
        }
        if slab == 0 {
            for _ in 0..2_000_000_000u32 {
                if self.passed.load(Ordering::SeqCst) {
                    self.met.store(true, Ordering::SeqCst);
                    return;
                }
            }
        }
    }
}

// Slabs that are surveyed one after another never meet.
#[test]
fn two_workers_survey_at_the_same_time(rt: HostRuntime) {
    let alloc = rt.alloc();
    let field = phantom_field(alloc, 12).expect(&rt, "a field");
    let gate = Meeting {
        passed: AtomicBool::new(false),
        met: AtomicBool::new(false),
    };
    assert!(rt; survey_by(&rt, alloc, &field, 2, &gate).is_some());
    assert!(rt; gate.met.load(Ordering::SeqCst));
}

// A ledger whose count others may look at.
#[derive(Drop)]
struct Watched<'a> {
    count: u64,
    shown: &'a AtomicU64,
}

impl<'a> Ledger for Watched<'a> {
    ghost count = { λ w. w.count };

    fn add(&mut self, n: u64) {
        self.count += n;
        self.shown.store(self.count, Ordering::SeqCst);
    }
}

// Remembers what a ledger showed before each of three slabs.
#[derive(Drop)]
struct Watch<'a> {
    shown: &'a AtomicU64,
    first: AtomicU64,
    second: AtomicU64,
    third: AtomicU64,
}

impl<'a> Gate for Watch<'a> {
    fn pass(&self, _worker: u32, slab: u32) {
        let count = self.shown.load(Ordering::SeqCst);
        match slab {
            0 => self.first.store(count, Ordering::SeqCst),
            1 => self.second.store(count, Ordering::SeqCst),
            _ => self.third.store(count, Ordering::SeqCst),
        }
    }
}

// The layers of the first slab's reach have 26 vertices, the second slab adds one layer of 9, and the third none.
#[test]
fn one_worker_makes_each_layer_once(rt: HostRuntime) {
    let alloc = rt.alloc();
    let (Some(field), Some(shares)) = (one_sample(alloc), Shares::new(1023, 1687)) else {
        panic!(rt; "no field")
    };
    let _ = vertex_count(field.dims());
    let plan = Plan {
        workers: 1,
        slab: 1,
    };
    let shown = AtomicU64::new(0);
    let gate = Watch {
        shown: &shown,
        first: AtomicU64::new(0),
        second: AtomicU64::new(0),
        third: AtomicU64::new(0),
    };
    let Ok(mut ledgers) = Vec::with_capacity(alloc, 1) else {
        panic!(rt; "no memory")
    };
    ledgers.push_reserved(Watched {
        count: 0,
        shown: &shown,
    });
    if survey(&rt, alloc, &field, shares, plan, &gate, ledgers).is_err() {
        panic!(rt; "no memory")
    }
    let before = [
        gate.first.load(Ordering::SeqCst),
        gate.second.load(Ordering::SeqCst),
        gate.third.load(Ordering::SeqCst),
    ];
    assert_eq!(rt; before, [0, 26, 35]);
    assert_eq!(rt; shown.load(Ordering::SeqCst), 35);
}
