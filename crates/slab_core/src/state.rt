//! What workers share and what each has done: which events are allowed, and what each does.
ghost use Rattle.std.specs.Prelude.{◌≡◌, ◌+◌, ◌<◌, ◌≤◌, ◌^◌, ℕ, true, false, length, replicate, All, MatchOption, OnErr, OnOk, IfOk};
ghost use Rattle.definitions.specs.Lattice.{vertices, layers};
ghost use Rattle.definitions.specs.Layout.{layer_start, slabs, reach, reach_from, reach_to};
ghost use Rattle.bcc_lattice.specs.Layouts.{IsLayout};
ghost use Rattle.list_words.specs.Words.{has_all};
ghost use Rattle.slab_core.specs.declared.event.Event.TheVariants.{Claim, Look, Put, Raise, Read, Finish, Quit};
ghost use Rattle.slab_core.specs.States.{new_worker, new_core};
ghost use Rattle.slab_core.specs.Steps.{worker, slab_count, reaches, has_put_layer, reach_words, is_there, allowed, after};
ghost use Rattle.slab_core.specs.Sound.{IsSound};

use crate::worker::Worker;
use crate::{Event, lists};
use bcc_lattice::{Layout, vertex_count, vertex_of};
use st_base::NoMemory;
use std::alloc::Global;
use std::marker::Model;

/// A state of the core: the codes that are wanted, the next slab, the words and flags that workers
/// share, and the workers.
#[derive(Drop)]
pub(crate) struct State {
    alloc: Global,
    layout: Layout,
    wanted: Vec<u64>,
    next: u32,
    words: Vec<u64>,
    flags: Vec<bool>,
    workers: Vec<Worker>,
}

impl Model for State {
    ghost use Rattle.slab_core.specs.States.{CoreState};
    ghost use Rattle.slab_core.specs.Views.{seen_as};

    ghost Value = { CoreState };

    ghost view = { seen_as };
}

impl State {
    /// The state in which nothing has happened.
    pub(crate) fn new(
        alloc: Global,
        layout: &Layout,
        wanted: &[u64],
        workers: u32,
    ) -> Result<State, NoMemory>
        requires { IsLayout layout.now.dims layout.now.slab }
        ensures { IfOk result (λ s. s ≡ new_core layout.now.dims layout.now.slab wanted.now workers) }
    {
        Ok(State {
            alloc,
            layout: *layout,
            wanted: copied(alloc, wanted)?,
            next: 0,
            words: zeros(alloc, vertex_count(layout.dims))?,
            flags: flags_down(alloc, layout.layers())?,
            workers: new_workers(alloc, workers)?,
        })
    }

    /// The worker, where it is there and isn't gone.
    fn live(&self, w: u32) -> Option<&Worker>
        ensures { MatchOption result (is_there self.now w ≡ false) (λ k. (is_there self.now w ≡ true) × (k.now ≡ worker self.now w)) }
    {
        let worker = self.workers.get(w as usize)?;
        if worker.is_gone() { None } else { Some(worker) }
    }

    /// Whether the event is allowed.
    pub(crate) fn allows(&self, event: Event) -> bool
        requires { IsSound self.now }
        ensures { result ≡ allowed event self.now }
    {
        match event {
            Event::Claim { w } => self.may_claim(w),
            Event::Look { w, h } => self.may_look(w, h),
            Event::Put { w, id } => self.may_put(w, id),
            Event::Raise { w, h } => self.may_raise(w, h),
            Event::Read { w, id } => self.may_read(w, id),
            Event::Finish { w, slab } => self.may_finish(w, slab),
            Event::Quit { w } => self.may_quit(w),
        }
    }

    fn may_claim(&self, w: u32) -> bool
        ensures { result ≡ allowed (Claim w) self.now }
    {
        match self.live(w) {
            Some(worker) => !worker.is_out(),
            None => false,
        }
    }

    fn may_look(&self, w: u32, h: u32) -> bool
        requires { IsLayout self.now.dims self.now.slab }
        ensures { result ≡ allowed (Look w h) self.now }
    {
        self.live(w).is_some() && h < self.layout.layers()
    }

    fn may_put(&self, w: u32, id: u32) -> bool
        requires { IsLayout self.now.dims self.now.slab }
        ensures { result ≡ allowed (Put w id) self.now }
    {
        self.live(w).is_some() && id < vertex_count(self.layout.dims)
    }

    fn may_raise(&self, w: u32, h: u32) -> bool
        requires { IsSound self.now }
        ensures { result ≡ allowed (Raise w h) self.now }
    {
        let Some(worker) = self.live(w) else {
            return false;
        };
        if !worker.saw_down(h) {
            return false;
        }
        if !self.reaches(worker, h) {
            return false;
        }
        self.has_put_layer(worker, h)
    }

    fn may_read(&self, w: u32, id: u32) -> bool
        requires { IsLayout self.now.dims self.now.slab }
        ensures { result ≡ allowed (Read w id) self.now }
    {
        let Some(worker) = self.live(w) else {
            return false;
        };
        match vertex_of(self.layout.dims, id) {
            Some(vertex) => worker.saw_up(vertex.h),
            None => false,
        }
    }

    fn may_finish(&self, w: u32, slab: u32) -> bool
        requires { IsSound self.now }
        ensures { result ≡ allowed (Finish w slab) self.now }
    {
        let Some(worker) = self.live(w) else {
            return false;
        };
        if !worker.has_drawn(slab) {
            return false;
        }
        !worker.is_done_with(slab) && self.saw_reach(worker, slab)
    }

    fn may_quit(&self, w: u32) -> bool
        ensures { result ≡ allowed (Quit w) self.now }
    {
        match self.live(w) {
            Some(worker) => worker.is_out() && worker.is_done_with_all(),
            None => false,
        }
    }

    /// Whether layer `h` is in the reach of a slab that the worker drew.
    fn reaches(&self, worker: &Worker, h: u32) -> bool
        requires layout { IsLayout self.now.dims self.now.slab }
        requires slabs { All (λ j. j < slab_count self.now) worker.now.drawn }
        ensures { result ≡ reaches self.now worker.now h }
    {
        for slab in worker.drawn() {
            let (from, to) = self.layout.reach_of(*slab);
            if from <= h && h < to {
                return true;
            }
        }
        false
    }

    /// Whether the worker put all ids of layer `h`.
    fn has_put_layer(&self, worker: &Worker, h: u32) -> bool
        requires layout { IsLayout self.now.dims self.now.slab }
        requires layer { h < layers self.now.dims }
        ensures { result ≡ has_put_layer self.now worker.now h }
    {
        let start = self.layout.layer_start(h);
        worker.has_put_all(start, start + self.layout.layer_len(h))
    }

    /// Whether the worker saw all layers in the reach of a slab with the flag up.
    fn saw_reach(&self, worker: &Worker, slab: u32) -> bool
        requires layout { IsLayout self.now.dims self.now.slab }
        requires slab { slab < slab_count self.now }
        ensures { result ≡ has_all (reach self.now.dims self.now.slab slab) worker.now.seen }
    {
        let (from, to) = self.layout.reach_of(slab);
        worker.saw_all_up(from, to)
    }

    /// Lets an event happen that is allowed.
    pub(crate) fn apply(&mut self, event: Event) -> Result<(), NoMemory>
        requires sound { IsSound self.old }
        requires allowed { allowed event self.old ≡ true }
        ensures ok { OnOk result (self.new ≡ after event self.old) }
        ensures err { OnErr result (self.new ≡ self.old) }
    {
        match event {
            Event::Claim { w } => self.claim(w),
            Event::Look { w, h } => self.look(w, h),
            Event::Put { w, id } => self.put(w, id),
            Event::Raise { w, h } => self.raise(w, h),
            Event::Read { w, id } => self.read(w, id),
            Event::Finish { w, slab } => self.finish(w, slab),
            Event::Quit { w } => {
                self.quit(w);
                Ok(())
            }
        }
    }

    fn claim(&mut self, w: u32) -> Result<(), NoMemory>
        requires layout { IsLayout self.old.dims self.old.slab }
        requires there { w < length self.old.workers }
        requires next { self.old.next + 1 < 2 ^ 32 }
        ensures ok { OnOk result (self.new ≡ after (Claim w) self.old) }
        ensures err { OnErr result (self.new ≡ self.old) }
    {
        let slabs = self.layout.slabs();
        self.workers[w as usize].claim(self.next, slabs)?;
        self.next += 1;
        Ok(())
    }

    fn look(&mut self, w: u32, h: u32) -> Result<(), NoMemory>
        requires there { w < length self.old.workers }
        requires layer { h < length self.old.flags }
        ensures ok { OnOk result (self.new ≡ after (Look w h) self.old) }
        ensures err { OnErr result (self.new ≡ self.old) }
    {
        let up = self.flags[h as usize];
        self.workers[w as usize].look(h, up)
    }

    fn put(&mut self, w: u32, id: u32) -> Result<(), NoMemory>
        requires there { w < length self.old.workers }
        requires word { id < length self.old.words }
        requires wanted { id < length self.old.wanted }
        ensures ok { OnOk result (self.new ≡ after (Put w id) self.old) }
        ensures err { OnErr result (self.new ≡ self.old) }
    {
        self.workers[w as usize].put(id)?;
        if self.words[id as usize] == 0 {
            self.words[id as usize] = self.wanted[id as usize];
        }
        Ok(())
    }

    fn raise(&mut self, w: u32, h: u32) -> Result<(), NoMemory>
        requires there { w < length self.old.workers }
        requires layer { h < length self.old.flags }
        ensures ok { OnOk result (self.new ≡ after (Raise w h) self.old) }
        ensures err { OnErr result (self.new ≡ self.old) }
    {
        self.workers[w as usize].raise(h)?;
        self.flags[h as usize] = true;
        Ok(())
    }

    fn read(&mut self, w: u32, id: u32) -> Result<(), NoMemory>
        requires there { w < length self.old.workers }
        requires word { id < length self.old.words }
        ensures ok { OnOk result (self.new ≡ after (Read w id) self.old) }
        ensures err { OnErr result (self.new ≡ self.old) }
    {
        let word = self.words[id as usize];
        self.workers[w as usize].read(id, word)
    }

    fn finish(&mut self, w: u32, slab: u32) -> Result<(), NoMemory>
        requires layout { IsLayout self.old.dims self.old.slab }
        requires there { w < length self.old.workers }
        requires slab { slab < slab_count self.old }
        requires words { length self.old.words ≡ length (vertices self.old.dims) }
        ensures ok { OnOk result (self.new ≡ after (Finish w slab) self.old) }
        ensures err { OnErr result (self.new ≡ self.old) }
    {
        let words = self.reach_words(slab)?;
        self.workers[w as usize].finish(slab, words)
    }

    fn quit(&mut self, w: u32)
        requires { w < length self.old.workers }
        ensures { self.new ≡ after (Quit w) self.old }
    {
        self.workers[w as usize].quit();
    }

    /// A copy of the words in the reach of a slab.
    fn reach_words(&self, slab: u32) -> Result<Vec<u64>, NoMemory>
        requires layout { IsLayout self.now.dims self.now.slab }
        requires slab { slab < slab_count self.now }
        requires words { length self.now.words ≡ length (vertices self.now.dims) }
        ensures { IfOk result (λ v. v.items ≡ reach_words self.now self.now.words slab) }
    {
        let (first, past) = reach_ids(&self.layout, slab);
        copied(self.alloc, &self.words[first as usize..past as usize])
    }
}

/// The first id of the reach of a slab, and one past its last.
fn reach_ids(layout: &Layout, slab: u32) -> (u32, u32)
    requires layout { IsLayout layout.now.dims layout.now.slab }
    requires slab { slab < slabs layout.now.dims layout.now.slab }
    ensures first { result.0 ≡ layer_start layout.now.dims (reach_from layout.now.slab slab) }
    ensures past { result.1 ≡ layer_start layout.now.dims (reach_to layout.now.dims layout.now.slab slab) }
    ensures order { result.0 ≤ result.1 }
    ensures within { result.1 ≤ length (vertices layout.now.dims) }
{
    let (from, to) = layout.reach_of(slab);
    let last = to - 1;
    let past = layout.layer_start(last) + layout.layer_len(last);
    (layout.layer_start(from), past)
}

/// A copy of the values.
fn copied(alloc: Global, values: &[u64]) -> Result<Vec<u64>, NoMemory>
    ensures { IfOk result (λ v. v.items ≡ values.now) }
{
    match Vec::from_slice(alloc, values) {
        Ok(copy) => Ok(copy),
        Err(_) => Err(NoMemory),
    }
}

/// As many words, all 0.
fn zeros(alloc: Global, len: u32) -> Result<Vec<u64>, NoMemory>
    ensures { IfOk result (λ v. v.items ≡ replicate len 0) }
{
    match Vec::from_elem(alloc, 0, len as usize) {
        Ok(words) => Ok(words),
        Err(_) => Err(NoMemory),
    }
}

/// As many flags, all down.
fn flags_down(alloc: Global, len: u32) -> Result<Vec<bool>, NoMemory>
    ensures { IfOk result (λ v. v.items ≡ replicate len false) }
{
    match Vec::from_elem(alloc, false, len as usize) {
        Ok(flags) => Ok(flags),
        Err(_) => Err(NoMemory),
    }
}

/// As many workers that have done nothing.
fn new_workers(alloc: Global, len: u32) -> Result<Vec<Worker>, NoMemory>
    ensures { IfOk result (λ v. v.items ≡ replicate len new_worker) }
{
    let mut workers = Vec::new(alloc);
    for _ in 0..len {
        lists::push(&mut workers, Worker::new(alloc))?;
    }
    Ok(workers)
}
