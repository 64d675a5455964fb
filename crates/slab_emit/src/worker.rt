ghost use Rattle.std.specs.Prelude.{◌≡◌, ◌+◌, ◌<◌, ◌≤◌, ◌^◌, All, length};
ghost use Rattle.definitions.specs.Layout.{slabs};
ghost use Rattle.slab_emit.specs.Sources.{CanPrint};
ghost use Rattle.slab_emit.specs.Workers.{HasMade, IsFinished, IsMade, IsReady, shares_of};

use crate::{Lines, Part, Source, part_of};
use crews::run_each;
use slab_claims::{Claim, ClaimSeat, Claims};
use slab_texts::Tools;
use st_base::{Gate, NoMemory};
use std::alloc::Global;
use std::thread::Threads;

/// What was made of a number that was drawn: the part of that slab of the round, unless there was no memory.
#[derive(Drop)]
pub struct Made {
    pub at: u32,
    pub part: Result<Part, NoMemory>,
}

/// A worker of a round: its number, its seat at the claims, its tools, and what it has made.
#[derive(Drop)]
pub struct Worker {
    pub number: u32,
    pub seat: ClaimSeat,
    pub tools: Tools,
    pub made: Vec<Made>,
}

// What is made of a number.
fn made_of(
    alloc: Global,
    tools: &mut Tools,
    source: &Source,
    lines: Lines,
    first: u32,
    at: u32,
) -> Made
    requires slab { first + at < slabs source.now.field.dims source.now.slab }
    requires small { first + at < 2 ^ 32 }
    requires printable { CanPrint lines source.now }
    ensures at { result.at ≡ at }
    ensures made { IsMade lines source.now first result }
{
    Made {
        at,
        part: part_of(alloc, tools, source, lines, first + at),
    }
}

/// Draws numbers until there are no more, and makes the part of each. One that finds no memory goes on drawing.
pub fn run_worker<G: Gate>(
    alloc: Global,
    source: &Source,
    lines: Lines,
    first: u32,
    claims: &Claims,
    gate: &G,
    worker: &mut Worker,
)
    requires ready { IsReady claims.now worker.old }
    requires slabs { first + claims.now.slabs ≤ slabs source.now.field.dims source.now.slab }
    requires small { first + claims.now.slabs < 2 ^ 32 }
    requires printable { CanPrint lines source.now }
    ensures finished { IsFinished claims.now worker.new }
    ensures made { HasMade lines source.now first worker.new }
    ensures share { worker.new.seat.share ≡ worker.old.seat.share }
{
    let mut next = 0u64;
    while let Claim::Slab(at) = claims.claim(&mut worker.seat) {
        gate.pass(worker.number, first + at);
        let made = made_of(alloc, &mut worker.tools, source, lines, first, at);
        worker.made.push_reserved(made);
        next = u64::from(at) + 1;
    }
}

/// Runs the workers to their end, each in a thread of its own where one can be made.
pub fn run_to_end<G: Gate + Sync, R: Threads + Sync>(
    rt: &R,
    alloc: Global,
    source: &Source,
    lines: Lines,
    first: u32,
    claims: &Claims,
    gate: &G,
    workers: Vec<Worker>,
) -> Vec<Worker>
    requires some { 0 < length workers.items }
    requires slabs { first + claims.now.slabs ≤ slabs source.now.field.dims source.now.slab }
    requires small { first + claims.now.slabs < 2 ^ 32 }
    requires printable { CanPrint lines source.now }
    requires ready { All (IsReady claims.now) workers.items }
    ensures finished { All (IsFinished claims.now) result.items }
    ensures made { All (HasMade lines source.now first) result.items }
    ensures shares { shares_of result.items ≡ shares_of workers.items }
    ensures some { 0 < length result.items }
{
    run_each(
        rt,
        workers,
        &|_, worker| run_worker(alloc, source, lines, first, claims, gate, worker),
    )
}
