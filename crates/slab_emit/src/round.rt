ghost use Rattle.std.specs.Prelude.{◌≡◌, ◌+◌, ◌-◌, ◌*◌, ◌<◌, ◌≤◌, ◌^◌, ℕ, [], true, false, All, IfOk, Option, None, Some, length, min, vec_capacity, slice_index_or, slice_set};
ghost use Rattle.definitions.specs.Layout.{slabs};
ghost use Rattle.list_words.specs.Words.{has};
ghost use Rattle.slab_emit.specs.declared.lines.Lines.{Lines};
ghost use Rattle.slab_emit.specs.Parts.{AreParts};
ghost use Rattle.slab_emit.specs.Sources.{CanPrint, SourceValue};
ghost use Rattle.slab_emit.specs.Workers.{FitPlaces, HasMade, IsFilled, IsFinished, IsMade, IsReady, numbers_of, shares_of};

use crate::worker::{Made, Worker, run_to_end};
use crate::{Crew, Lines, Part, Source};
use slab_claims::{ClaimSeat, Claims};
use st_base::{Gate, NoMemory};
use std::alloc::Global;
use std::thread::Threads;

/// What was made of a number of the round, if it was drawn.
type Place = Option<Result<Part, NoMemory>>;

// A worker with room for something of each number.
fn worker_of(
    alloc: Global,
    claims: &Claims,
    crew: &mut Crew,
    number: u32,
    seat: ClaimSeat,
    count: u32,
) -> Result<Worker, NoMemory>
    requires seat { seat.of ≡ claims.now }
    requires going { seat.done ≡ false }
    requires none_drawn { seat.drawn ≡ [] }
    requires count { claims.now.slabs ≤ count }
    ensures ready { IfOk result (IsReady claims.now) }
    ensures share { IfOk result (λ w. w.seat.share ≡ seat.share) }
    ensures crew { crew.new ≡ crew.old }
{
    let tools = crew.tools(alloc)?;
    match Vec::with_capacity(alloc, count as usize) {
        Ok(made) => Ok(Worker {
            number,
            seat,
            tools,
            made,
        }),
        Err(_) => Err(NoMemory),
    }
}

// So many workers.
fn hire(
    alloc: Global,
    claims: &Claims,
    crew: &mut Crew,
    seat: ClaimSeat,
    workers: u32,
    count: u32,
) -> Result<Vec<Worker>, NoMemory>
    requires seat { seat.of ≡ claims.now }
    requires share { seat.share ≡ workers }
    requires some { 1 ≤ workers }
    requires going { seat.done ≡ false }
    requires none_drawn { seat.drawn ≡ [] }
    requires count { claims.now.slabs ≤ count }
    ensures ready { IfOk result (λ ws. All (IsReady claims.now) ws.items) }
    ensures some { IfOk result (λ ws. 0 < length ws.items) }
    ensures shares { IfOk result (λ ws. shares_of ws.items ≡ workers) }
    ensures crew { crew.new ≡ crew.old }
{
    let Ok(mut hired) = Vec::with_capacity(alloc, workers as usize) else {
        return Err(NoMemory);
    };
    let mut seat = seat;
    for number in 1..workers {
        let given = claims.split(&mut seat);
        let worker = worker_of(alloc, claims, crew, number, given, count)?;
        hired.push_reserved(worker);
    }
    let last = worker_of(alloc, claims, crew, 0, seat, count)?;
    hired.push_reserved(last);
    Ok(hired)
}

// So many empty places.
fn places_of(alloc: Global, count: u32) -> Result<Vec<Place>, NoMemory>
    ensures len { IfOk result (λ places. length places.items ≡ count) }
    ensures none { IfOk result (λ places. All (λ p. p ≡ None) places.items) }
{
    let Ok(mut places) = Vec::with_capacity(alloc, count as usize) else {
        return Err(NoMemory);
    };
    for _ in 0..count {
        places.push_reserved(None);
    }
    Ok(places)
}

// Puts what was made of a number in its place.
fn fill(places: &mut [Place], one: Made)
    requires { one.at < length places.old }
    ensures { places.new ≡ slice_set places.old one.at (Some one.part) }
{
    let Made { at, part } = one;
    places[at as usize] = Some(part);
}

// Puts what was made of some numbers in their places.
fn place(places: &mut [Place], made: Vec<Made>)
    requires { All (λ m. m.at < length places.old) made.items }
    ensures filled { (x : ℕ) → has x (numbers_of made.items) ≡ true → IsFilled places.new x }
    ensures kept { (x : ℕ) → IsFilled places.old x → IsFilled places.new x }
    ensures fit { (lines : Lines) (s : SourceValue) (first : ℕ) → All (IsMade lines s first) made.items → FitPlaces lines s first places.old → FitPlaces lines s first places.new }
{
    let mut made = made;
    while let Some(one) = made.pop() {
        fill(places, one);
    }
}

// Puts what a worker has made in its places, and takes its tools back; its seat is left.
fn take_in(claims: &Claims, crew: &mut Crew, places: &mut [Place], worker: Worker) -> ClaimSeat
    requires finished { IsFinished claims.now worker }
    requires len { length places.old ≡ claims.now.slabs }
    ensures seat { result ≡ worker.seat }
    ensures filled { (x : ℕ) → has x worker.seat.drawn ≡ true → IsFilled places.new x }
    ensures kept { (x : ℕ) → IsFilled places.old x → IsFilled places.new x }
    ensures fit { (lines : Lines) (s : SourceValue) (first : ℕ) → HasMade lines s first worker → FitPlaces lines s first places.old → FitPlaces lines s first places.new }
    ensures crew { crew.new ≡ crew.old }
{
    let Worker {
        seat,
        tools,
        made,
        ..
    } = worker;
    place(places, made);
    crew.leave(tools);
    seat
}

// Puts what the workers have made in its places, and joins their seats.
fn gather(claims: &Claims, crew: &mut Crew, places: &mut [Place], workers: Vec<Worker>) -> ClaimSeat
    requires some { 0 < length workers.items }
    requires finished { All (IsFinished claims.now) workers.items }
    requires len { length places.old ≡ claims.now.slabs }
    ensures of { result.of ≡ claims.now }
    ensures done { result.done ≡ true }
    ensures share { result.share ≡ shares_of workers.items }
    ensures filled { (x : ℕ) → has x result.drawn ≡ true → IsFilled places.new x }
    ensures fit { (lines : Lines) (s : SourceValue) (first : ℕ) → All (HasMade lines s first) workers.items → FitPlaces lines s first places.old → FitPlaces lines s first places.new }
    ensures crew { crew.new ≡ crew.old }
{
    let mut workers = workers;
    let Some(last) = workers.pop() else {
        unreachable!()
    };
    let mut seat = take_in(claims, crew, places, last);
    while let Some(worker) = workers.pop() {
        let other = take_in(claims, crew, places, worker);
        claims.join(&mut seat, other);
    }
    seat
}

// The parts in order, unless there was no memory for one. They are taken out of their places.
fn collect(alloc: Global, places: &mut [Place]) -> Result<Vec<Part>, NoMemory>
    requires filled { (x : ℕ) → IsFilled places.old x }
    ensures parts { (lines : Lines) (s : SourceValue) (first : ℕ) → FitPlaces lines s first places.old → IfOk result (λ ps. AreParts lines s first ps.items) }
    ensures len { IfOk result (λ ps. length ps.items ≡ length places.old) }
{
    let Ok(mut parts) = Vec::with_capacity(alloc, places.len()) else {
        return Err(NoMemory);
    };
    for n in 0..places.len() {
        match places[n].take() {
            Some(Ok(part)) => parts.push_reserved(part),
            Some(Err(fault)) => return Err(fault),
            None => unreachable!(),
        }
    }
    Ok(parts)
}

/// The parts of the slabs from `first` on, four for each worker or as many as there are: drawn by the workers, each in
/// a thread of its own where one can be made, and given in the order of slabs.
///
/// ```
/// let mut crew = Crew::new(alloc, 4);
/// let parts = emit(rt, alloc, &source, Lines::Tets { numbering: 0 }, &mut crew, &OpenGate, 0)?;
/// assert_eq!(parts[0].slab, 0);
/// ```
pub fn emit<G: Gate + Sync, R: Threads + Sync>(
    rt: &R,
    alloc: Global,
    source: &Source,
    lines: Lines,
    crew: &mut Crew,
    gate: &G,
    first: u32,
) -> Result<Vec<Part>, NoMemory>
    requires first { first < slabs source.now.field.dims source.now.slab }
    requires printable { CanPrint lines source.now }
    ensures parts { IfOk result (λ ps. AreParts lines source.now first ps.items) }
    ensures len { IfOk result (λ ps. length ps.items ≡ min (4 * crew.old) (slabs source.now.field.dims source.now.slab - first)) }
    ensures crew { crew.new ≡ crew.old }
{
    let count = (4 * crew.workers()).min(source.slabs() - first);
    let workers = crew.workers().min(count);
    let Ok((claims, seat)) = Claims::new(alloc, count, workers) else {
        return Err(NoMemory);
    };
    let mut places = places_of(alloc, count)?;
    let hired = hire(alloc, &claims, crew, seat, workers, count)?;
    let done = run_to_end(rt, alloc, source, lines, first, &claims, gate, hired);
    let seat = gather(&claims, crew, places.as_mut_slice(), done);
    // Each number was drawn, so that no place is empty.
    claims.close(seat).each_once();
    collect(alloc, places.as_mut_slice())
}
