ghost use Rattle.std.specs.Prelude.{◌≡◌, ◌+◌, ◌^◌, ◌<◌, ◌≤◌, IfOk, length};
ghost use Rattle.definitions.specs.Lattice.{layers};
ghost use Rattle.definitions.specs.Layout.{layer_start};
ghost use Rattle.definitions.specs.Mesh.{ArePadded};
ghost use Rattle.vertex_numbers.specs.Counts.{layer_counts};
ghost use Rattle.slab_texts.specs.Nodes.{HasNodes, HasPlaces};

use bcc_lattice::{first_vertex, ids_below};
use mesh_lists::places_of;
use samples::Field;
use snap_rule::States;
use st_base::{NoMemory, Place};
use std::alloc::Global;
use vertex_numbers::{Offsets, Starts};

/// The nodes of the vertices of the ids from `start` on and before `end`: their numbers and their places,
/// and the number of the first.
#[derive(Drop)]
pub struct Nodes {
    pub start: u32,
    pub end: u32,
    pub starts: Starts,
    pub places: Vec<Place>,
    pub first: u32,
}

/// How many nodes the layers from `from` on and before `to` have.
pub fn count(offsets: &Offsets, from: u32, to: u32) -> u32
    requires some { from ≤ to }
    requires within { to ≤ length offsets.now }
{
    offsets
        .node_start(to)
        .saturating_sub(offsets.node_start(from))
}

impl Nodes {
    /// The nodes of the layers from `from` on and before `to`.
    pub fn of_layers(
        alloc: Global,
        field: &Field,
        states: &States,
        offsets: &Offsets,
        from: u32,
        to: u32,
    ) -> Result<Nodes, NoMemory>
        requires sizes { states.now.dims ≡ field.now.dims }
        requires padded { ArePadded states.now.dims states.now.states }
        requires offsets { offsets.now ≡ layer_counts states.now.dims states.now.states }
        requires some { from < to }
        requires within { to ≤ layers states.now.dims }
        ensures start { IfOk result (λ n. n.start ≡ layer_start field.now.dims from) }
        ensures end { IfOk result (λ n. n.end ≡ layer_start field.now.dims to) }
        ensures nodes { IfOk result (HasNodes field.now.dims states.now.states) }
        ensures places { IfOk result (HasPlaces field.now states.now.states) }
    {
        let dims = states.dims();
        let start = ids_below(dims, from);
        let end = ids_below(dims, to);
        let starts = Starts::of_layers(alloc, states, offsets, from, to)?;
        let v = first_vertex(from);
        let count = count(offsets, from, to);
        let places = places_of(alloc, count, field, states, &starts, v, start, end)?;
        Ok(Nodes {
            start,
            end,
            starts,
            places,
            first: offsets.node_start(from),
        })
    }
}
