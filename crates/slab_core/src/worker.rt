//! What one worker has done.
ghost use Rattle.std.specs.Prelude.{◌≡◌, ◌-◌, ◌≤◌, [], ◌∷◌, ◌++◌, true, OnErr, OnOk};
ghost use Rattle.std.specs.List.{range_with_len};
ghost use Rattle.list_words.specs.Words.{has, has_all, joined};
ghost use Rattle.slab_core.specs.States.{new_worker};
ghost use Rattle.slab_core.specs.Steps.{claimed, looked, raised, slabs_done};

use crate::lists;
use st_base::NoMemory;
use std::alloc::Global;
use std::marker::Model;

/// A slab that is done, with the words of its reach.
#[derive(Drop)]
pub(crate) struct Done {
    pub(crate) slab: u32,
    pub(crate) words: Vec<u64>,
}

impl Model for Done {
    ghost use Rattle.std.specs.Prelude.{ℕ, List};

    ghost Value = { ℕ × List ℕ };

    ghost view = { λ d. (d.slab, d.words.items) };
}

/// The slabs that a worker has drawn and those that it is done with, the layers and ids that it knows,
/// and what it read.
#[derive(Drop)]
pub(crate) struct Worker {
    drawn: Vec<u32>,
    seen: Vec<u32>,
    down: Vec<u32>,
    put: Vec<u32>,
    made: Vec<u32>,
    got: Vec<(u32, u64)>,
    done: Vec<Done>,
    out: bool,
    gone: bool,
}

impl Model for Worker {
    ghost use Rattle.slab_core.specs.States.{WorkerState};

    ghost Value = { WorkerState };

    ghost view = { λ k. record { drawn = k.drawn.items; seen = k.seen.items; down = k.down.items; put = k.put.items; made = k.made.items; got = k.got.items; done = k.done.items; out = k.out; gone = k.gone } };
}

impl Worker {
    pub(crate) fn new(alloc: Global) -> Worker
        ensures { result ≡ new_worker }
    {
        Worker {
            drawn: Vec::new(alloc),
            seen: Vec::new(alloc),
            down: Vec::new(alloc),
            put: Vec::new(alloc),
            made: Vec::new(alloc),
            got: Vec::new(alloc),
            done: Vec::new(alloc),
            out: false,
            gone: false,
        }
    }

    /// It draws number `next`, or is out where that is no slab.
    pub(crate) fn claim(&mut self, next: u32, slabs: u32) -> Result<(), NoMemory>
        ensures ok { OnOk result (self.new ≡ claimed next slabs self.old) }
        ensures err { OnErr result (self.new ≡ self.old) }
    {
        if next >= slabs {
            self.out = true;
            return Ok(());
        }
        lists::push(&mut self.drawn, next)
    }

    /// It saw layer `h` with the flag up or down.
    pub(crate) fn look(&mut self, h: u32, up: bool) -> Result<(), NoMemory>
        ensures ok { OnOk result (self.new ≡ looked h up self.old) }
        ensures err { OnErr result (self.new ≡ self.old) }
    {
        if !up {
            return lists::join(&mut self.down, h);
        }
        lists::join(&mut self.seen, h)?;
        lists::leave(&mut self.down, h);
        Ok(())
    }

    /// It put the word of a vertex.
    pub(crate) fn put(&mut self, id: u32) -> Result<(), NoMemory>
        ensures ok { OnOk result (self.new ≡ record self.old { put = joined id self.old.put }) }
        ensures err { OnErr result (self.new ≡ self.old) }
    {
        lists::join(&mut self.put, id)
    }

    /// It made layer `h`.
    pub(crate) fn raise(&mut self, h: u32) -> Result<(), NoMemory>
        ensures ok { OnOk result (self.new ≡ raised h self.old) }
        ensures err { OnErr result (self.new ≡ self.old) }
    {
        if self.made.reserve(1).is_err() {
            return Err(NoMemory);
        }
        lists::join(&mut self.seen, h)?;
        if self.made.push(h).is_err() {
            unreachable!();
        }
        lists::leave(&mut self.down, h);
        Ok(())
    }

    /// It read the word of a vertex.
    pub(crate) fn read(&mut self, id: u32, word: u64) -> Result<(), NoMemory>
        ensures ok { OnOk result (self.new ≡ record self.old { got = self.old.got ++ (id, word) ∷ [] }) }
        ensures err { OnErr result (self.new ≡ self.old) }
    {
        lists::push(&mut self.got, (id, word))
    }

    /// It is done with a slab, whose reach has these words.
    pub(crate) fn finish(&mut self, slab: u32, words: Vec<u64>) -> Result<(), NoMemory>
        ensures ok { OnOk result (self.new ≡ record self.old { done = self.old.done ++ (slab, words.items) ∷ [] }) }
        ensures err { OnErr result (self.new ≡ self.old) }
    {
        lists::push(&mut self.done, Done { slab, words })
    }

    pub(crate) fn quit(&mut self)
        ensures { self.new ≡ record self.old { gone = true } }
    {
        self.gone = true;
    }

    pub(crate) fn is_gone(&self) -> bool
        ensures { result ≡ self.now.gone }
    {
        self.gone
    }

    pub(crate) fn is_out(&self) -> bool
        ensures { result ≡ self.now.out }
    {
        self.out
    }

    /// The slabs that it drew.
    pub(crate) fn drawn(&self) -> &[u32]
        ensures { result.now ≡ self.now.drawn }
    {
        self.drawn.as_slice()
    }

    /// Whether it drew a slab.
    pub(crate) fn has_drawn(&self, slab: u32) -> bool
        ensures { result ≡ has slab self.now.drawn }
    {
        lists::has(self.drawn.as_slice(), slab)
    }

    /// Whether its last look at layer `h` found the flag down.
    pub(crate) fn saw_down(&self, h: u32) -> bool
        ensures { result ≡ has h self.now.down }
    {
        lists::has(self.down.as_slice(), h)
    }

    /// Whether it saw layer `h` with the flag up.
    pub(crate) fn saw_up(&self, h: u32) -> bool
        ensures { result ≡ has h self.now.seen }
    {
        lists::has(self.seen.as_slice(), h)
    }

    /// Whether it saw all layers from `from` on and below `to` with the flag up.
    pub(crate) fn saw_all_up(&self, from: u32, to: u32) -> bool
        requires { from ≤ to }
        ensures { result ≡ has_all (range_with_len from (to - from)) self.now.seen }
    {
        lists::has_range(self.seen.as_slice(), from, to)
    }

    /// Whether it put all ids from `from` on and below `to`.
    pub(crate) fn has_put_all(&self, from: u32, to: u32) -> bool
        requires { from ≤ to }
        ensures { result ≡ has_all (range_with_len from (to - from)) self.now.put }
    {
        lists::has_range(self.put.as_slice(), from, to)
    }

    /// Whether it is done with a slab.
    pub(crate) fn is_done_with(&self, slab: u32) -> bool
        ensures { result ≡ has slab (slabs_done self.now) }
    {
        for done in &self.done {
            if done.slab == slab {
                return true;
            }
        }
        false
    }

    /// Whether it is done with all slabs that it drew.
    pub(crate) fn is_done_with_all(&self) -> bool
        ensures { result ≡ has_all self.now.drawn (slabs_done self.now) }
    {
        for slab in &self.drawn {
            if !self.is_done_with(*slab) {
                return false;
            }
        }
        true
    }
}
