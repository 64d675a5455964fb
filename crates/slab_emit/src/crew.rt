ghost use Rattle.std.specs.Prelude.{◌≡◌, ◌≤◌};

use crate::Part;
use slab_texts::Tools;
use st_base::NoMemory;
use std::alloc::Global;
use std::marker::Model;

/// How many slabs of a round there are for each worker.
const SHARE: u32 = 4;

/// So many workers, and what they leave from one round to the next: their tools, and the memory of texts that were
/// written. Contracts see the number.
///
/// There are 1 to 64 workers.
#[derive(Drop)]
pub struct Crew {
    workers: u32,
    tools: Vec<Tools>,
    texts: Vec<Vec<u8>>,
}

impl Model for Crew {
    ghost use Rattle.std.specs.Prelude.{ℕ, ◌≤◌};

    ghost Value = { ℕ };

    ghost view = { λ c. c.workers };

    ghost invariant = { λ c. (1 ≤ c.workers) × (c.workers ≤ 64) };
}

impl Crew {
    /// So many workers, 1 to 64, without tools yet.
    pub fn new(alloc: Global, workers: u32) -> Crew
        requires low { 1 ≤ workers }
        requires high { workers ≤ 64 }
        ensures { result ≡ workers }
    {
        Crew {
            workers,
            tools: Vec::new(alloc),
            texts: Vec::new(alloc),
        }
    }

    /// How many workers.
    pub fn workers(&self) -> u32
        ensures workers { result ≡ self.now }
        ensures low { 1 ≤ result }
        ensures high { result ≤ 64 }
    {
        self.workers
    }

    // Keeps the memory of a text, unless that of a whole round is kept; where there is none to note it in, it is given up.
    fn keep(&mut self, text: Vec<u8>)
        ensures { self.new ≡ self.old }
    {
        if self.texts.len() < SHARE as usize * self.workers as usize {
            let _ = self.texts.push(text);
        }
    }

    /// Takes back the texts of parts that are done with, for the next round to be written into.
    pub fn hand_back(&mut self, parts: Vec<Part>)
        ensures { self.new ≡ self.old }
    {
        let mut parts = parts;
        while let Some(part) = parts.pop() {
            self.keep(part.text);
        }
    }

    // Tools that were left, or new ones.
    fn left_tools(&mut self, alloc: Global) -> Result<Tools, NoMemory>
        ensures { self.new ≡ self.old }
    {
        match self.tools.pop() {
            Some(tools) => Ok(tools),
            None => Tools::new(alloc),
        }
    }

    /// Tools that were left, or new ones, with a worker's share of the texts that are kept.
    pub(crate) fn tools(&mut self, alloc: Global) -> Result<Tools, NoMemory>
        ensures { self.new ≡ self.old }
    {
        let mut tools = self.left_tools(alloc)?;
        for _ in 0..SHARE {
            match self.texts.pop() {
                Some(text) => tools.keep(text),
                None => break,
            }
        }
        Ok(tools)
    }

    /// Tools are left, with the texts in them; where there is no memory to keep them, they are given up.
    pub(crate) fn leave(&mut self, tools: Tools)
        ensures { self.new ≡ self.old }
    {
        let mut tools = tools;
        for _ in 0..SHARE {
            match tools.take_kept() {
                Some(text) => self.keep(text),
                None => break,
            }
        }
        let _ = self.tools.push(tools);
    }
}
