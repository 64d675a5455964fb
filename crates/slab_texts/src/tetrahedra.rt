ghost use Rattle.std.specs.Prelude.{◌≡◌, ◌+◌, ◌-◌, ◌*◌, ◌^◌, ◌<◌, ◌≤◌, ℕ, All, OnOk, flat_map, length};
ghost use Rattle.std.specs.List.{range_with_len};
ghost use Rattle.definitions.specs.Lattice.{InDomain, id as id_of, vertex_at, vertices};
ghost use Rattle.mesh_lists.specs.Layers.{HoldLayers};
ghost use Rattle.mesh_lists.specs.Parts.{numbered, numbered_from};
ghost use Rattle.slab_texts.specs.Nodes.{HasNodes, pieces_at};
ghost use Rattle.slab_texts.specs.Stars.{PlusOnLattice};
ghost use Rattle.slab_texts.specs.Texts.{Adds, AreMeasuredIn};

use crate::lines::{push_all, push_whole};
use crate::{Nodes, TetLines, Tools};
use bcc_lattice::next_vertex;
use mesh_lists::{push_tets_from, whole_numbers};
use snap_rule::States;
use st_base::{NoMemory, Vertex};
use vertex_numbers::Walk;

// The pieces of the lattice tetrahedra whose lowest vertex is `v`.
fn push_pieces(
    states: &States,
    nodes: &Nodes,
    v: Vertex,
    id: u32,
    tools: &mut Tools,
    out: &mut TetLines,
) -> Result<(), NoMemory>
    requires nodes { HasNodes states.now.dims states.now.states nodes.now }
    requires domain { InDomain states.now.dims v }
    requires hold { HoldLayers states.now.dims v.h nodes.now.start nodes.now.end }
    requires id { id ≡ id_of states.now.dims v }
    requires measured { AreMeasuredIn nodes.now (numbered_from states.now.dims states.now.states v) }
    requires room { out.old.number + 18 < 2 ^ 63 }
    ensures adds { OnOk result (Adds nodes.now out.old (numbered_from states.now.dims states.now.states v) out.new) }
    ensures few { out.new.number ≤ out.old.number + 18 }
{
    tools.tets.clear();
    push_tets_from(states, &nodes.starts, v, id, &mut tools.tets)?;
    push_all(nodes, &tools.tets, &mut tools.pen, out)
}

// The same, at once where all of them are whole.
fn push_from(
    states: &States,
    nodes: &Nodes,
    v: Vertex,
    id: u32,
    tools: &mut Tools,
    out: &mut TetLines,
) -> Result<(), NoMemory>
    requires nodes { HasNodes states.now.dims states.now.states nodes.now }
    requires plus { PlusOnLattice states.now.dims states.now.states nodes.now }
    requires domain { InDomain states.now.dims v }
    requires hold { HoldLayers states.now.dims v.h nodes.now.start nodes.now.end }
    requires measured { AreMeasuredIn nodes.now (numbered_from states.now.dims states.now.states v) }
    requires id { id ≡ id_of states.now.dims v }
    requires small { id < 2 ^ 27 }
    requires low { nodes.now.start ≤ id }
    requires high { id < nodes.now.end }
    requires room { out.old.number + 18 < 2 ^ 63 }
    ensures adds { OnOk result (Adds nodes.now out.old (numbered_from states.now.dims states.now.states v) out.new) }
    ensures few { out.new.number ≤ out.old.number + 18 }
{
    match whole_numbers(states, &nodes.starts, v, id) {
        Some(whole) => push_whole(nodes, &whole, &mut tools.pen, out),
        None => push_pieces(states, nodes, v, id, tools, out),
    }
}

/// The pieces of the lattice tetrahedra whose lowest vertices have the ids from `from` on and before `to`, `v` being
/// the first.
pub fn push_tets(
    states: &States,
    nodes: &Nodes,
    v: Vertex,
    from: u32,
    to: u32,
    tools: &mut Tools,
    out: &mut TetLines,
) -> Result<(), NoMemory>
    requires nodes { HasNodes states.now.dims states.now.states nodes.now }
    requires plus { PlusOnLattice states.now.dims states.now.states nodes.now }
    requires first { from < length (vertices states.now.dims) → v ≡ vertex_at states.now.dims from }
    requires some { from ≤ to }
    requires within { to ≤ length (vertices states.now.dims) }
    requires hold { (n : ℕ) → from ≤ n → n < to → HoldLayers states.now.dims (vertex_at states.now.dims n).h nodes.now.start nodes.now.end }
    requires low { nodes.now.start ≤ from }
    requires high { to ≤ nodes.now.end }
    requires measured { AreMeasuredIn nodes.now (numbered states.now.dims states.now.states (flat_map (pieces_at states.now.dims states.now.states) (range_with_len from (to - from)))) }
    requires room { out.old.number + 18 * (to - from) < 2 ^ 63 }
    ensures { OnOk result (Adds nodes.now out.old (numbered states.now.dims states.now.states (flat_map (pieces_at states.now.dims states.now.states) (range_with_len from (to - from)))) out.new) }
{
    let dims = states.dims();
    let mut at = Walk::from(&nodes.starts, dims, v, from, to);
    while at.id < to {
        push_from(states, nodes, at.v, at.id, tools, out)?;
        at = Walk::from(&nodes.starts, dims, next_vertex(dims, at.v), at.id + 1, to);
    }
    Ok(())
}
