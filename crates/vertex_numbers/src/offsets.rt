ghost use Rattle.std.specs.Prelude.{◌≡◌, ◌≤◌, ◌<◌, ◌^◌, IfOk, length, map, sum_by, take};
ghost use Rattle.std.specs.List.{range_with_len};

use crate::LayerCount;
use st_base::NoMemory;
use std::alloc::Global;
use std::marker::Model;

/// What a layer has, and how many nodes and tetrahedra the layers below it have.
#[derive(Clone, Copy)]
pub struct Offset {
    pub count: LayerCount,
    pub nodes_below: u32,
    pub tets_below: u64,
}

/// The numbers of nodes and tetrahedra of all layers, and of those below each. Contracts see the list of
/// the layers' counts.
///
/// Each layer stands with the sums of those below it, and the two numbers are the sums of all.
#[derive(Drop)]
pub struct Offsets {
    layers: Vec<Offset>,
    nodes: u32,
    tets: u64,
}

impl Model for Offsets {
    ghost use Rattle.std.specs.Prelude.{List, map};
    ghost use Rattle.vertex_numbers.specs.declared.counts.LayerCount.{LayerCount};
    ghost use Rattle.vertex_numbers.specs.Offsets.{AreOffsets, counts_of};

    ghost Value = { List LayerCount };

    ghost view = { λ o. counts_of o.layers.items };

    ghost invariant = { λ o. AreOffsets o.layers.items o.nodes o.tets };
}

impl Offsets {
    ghost use Rattle.std.specs.Prelude.{length, sum_by, take};

    /// The offsets of these counts, which are of the layers 0, 1, 2 and so on.
    pub fn new(alloc: Global, counts: &[LayerCount]) -> Result<Offsets, NoMemory>
        requires layers { map (λ c. c.h) counts.now ≡ range_with_len 0 (length counts.now) }
        requires nodes { sum_by (λ c. c.nodes) counts.now < 2 ^ 32 }
        requires tets { sum_by (λ c. c.tets) counts.now < 2 ^ 64 }
        ensures { IfOk result (λ o. o ≡ counts.now) }
    {
        let Ok(mut layers) = Vec::with_capacity(alloc, counts.len()) else {
            return Err(NoMemory);
        };
        let mut nodes = 0u32;
        let mut tets = 0u64;
        for count in counts {
            let offset = Offset {
                count: *count,
                nodes_below: nodes,
                tets_below: tets,
            };
            if layers.push(offset).is_err() {
                return Err(NoMemory);
            }
            nodes += count.nodes;
            tets += count.tets;
        }
        Ok(Offsets {
            layers,
            nodes,
            tets,
        })
    }

    /// How many nodes the layers below layer `h` have, which may be one past the last.
    pub fn node_start(&self, h: u32) -> u32
        requires { h ≤ length self.now }
        ensures { result ≡ sum_by (λ c. c.nodes) (take h self.now) }
    {
        match self.layers.get(h as usize) {
            Some(layer) => layer.nodes_below,
            None => self.nodes,
        }
    }

    /// How many tetrahedra the layers below layer `h` have, which may be one past the last.
    pub fn tet_start(&self, h: u32) -> u64
        requires { h ≤ length self.now }
        ensures { result ≡ sum_by (λ c. c.tets) (take h self.now) }
    {
        match self.layers.get(h as usize) {
            Some(layer) => layer.tets_below,
            None => self.tets,
        }
    }

    /// How many nodes there are.
    pub fn nodes(&self) -> u32
        ensures { result ≡ sum_by (λ c. c.nodes) self.now }
    {
        self.nodes
    }

    /// How many tetrahedra there are.
    pub fn tets(&self) -> u64
        ensures { result ≡ sum_by (λ c. c.tets) self.now }
    {
        self.tets
    }
}
