//! The pieces of the six lattice tetrahedra at a vertex that has all its neighbours upwards, kind by kind.
ghost use Rattle.std.specs.Prelude.{◌≡◌, ℕ, ◌+◌, ◌^◌, ◌<◌, ◌≤◌, ◌++◌, IsTrue, OnOk, length, map, slice_index};
ghost use Rattle.definitions.specs.Lattice.{InDomain, id as id_of, vertices};
ghost use Rattle.definitions.specs.Mesh.{ArePadded};
ghost use Rattle.mesh_lists.specs.Kinds.{AddsKind, AddsPieces, AreTetVertices, GivesTen, IsTetVertex, tet_vertex_at};
ghost use Rattle.mesh_lists.specs.Layers.{AreFrom, NumbersLayers};
ghost use Rattle.mesh_lists.specs.Parts.{numbered_from};
ghost use Rattle.stencils.specs.Cases.{has_places, listed};
ghost use Rattle.stencils.specs.Frames.{are_directions};
ghost use Rattle.vertex_numbers.specs.Later.{AreBelow, AreLater};

use crate::list::push;
use definitions::Sign;
use snap_rule::States;
use st_base::{NoMemory, Vertex};
use stencils::{Case, Frame, at_places, case_of_signs, frame_of_kind};
use vertex_numbers::{Later, Starts, VertexNodes};

/// A vertex of a lattice tetrahedron: its sign, and the nodes at it.
#[derive(Clone, Copy)]
pub struct TetVertex {
    pub sign: Sign,
    pub nodes: VertexNodes,
}

/// The sign of the vertex of an id, and the nodes at it.
#[inline(always)]
fn tet_vertex(states: &States, starts: &Starts, id: u32) -> TetVertex
    requires within { id < length (vertices states.now.dims) }
    requires low { starts.now.first ≤ id }
    requires high { id < starts.now.first + starts.now.len }
    ensures { IsTetVertex states.now.states starts.now id result }
{
    TetVertex {
        sign: states.sign(id),
        nodes: starts.vertex_nodes(id),
    }
}

/// Those of the vertex of an id, and of its neighbours upwards in directions 1 to 7.
#[inline(always)]
fn tet_vertices(states: &States, starts: &Starts, id: u32, later: &Later) -> [TetVertex; 8]
    requires own_within { id < length (vertices states.now.dims) }
    requires own_low { starts.now.first ≤ id }
    requires own_high { id < starts.now.first + starts.now.len }
    requires within { AreBelow (length (vertices states.now.dims)) later.now }
    requires low { AreFrom starts.now.first later.now }
    requires high { AreBelow (starts.now.first + starts.now.len) later.now }
    ensures { AreTetVertices states.now.states starts.now id later.now result }
{
    [
        tet_vertex(states, starts, id),
        tet_vertex(states, starts, later.first),
        tet_vertex(states, starts, later.second),
        tet_vertex(states, starts, later.third),
        tet_vertex(states, starts, later.fourth),
        tet_vertex(states, starts, later.fifth),
        tet_vertex(states, starts, later.sixth),
        tet_vertex(states, starts, later.seventh),
    ]
}

/// The numbers of the ten nodes that a lattice tetrahedron can have, in the order of their keys, by the nodes at its
/// vertices and the directions of its edges 01, 02, 03, 12, 13 and 23. Those of nodes that do not occur say nothing.
#[inline(always)]
fn ten_numbers(
    a: VertexNodes,
    b: VertexNodes,
    c: VertexNodes,
    d: VertexNodes,
    directions: [u32; 6],
) -> [u32; 10]
    requires few_a { a.before + 8 < 2 ^ 32 }
    requires few_b { b.before + 8 < 2 ^ 32 }
    requires few_c { c.before + 8 < 2 ^ 32 }
    requires small { IsTrue (are_directions directions) }
    ensures { GivesTen a b c d directions result }
{
    [
        a.before,
        a.number(directions[0]),
        a.number(directions[1]),
        a.number(directions[2]),
        b.before,
        b.number(directions[3]),
        b.number(directions[4]),
        c.before,
        c.number(directions[5]),
        d.before,
    ]
}

/// The pieces of a case, with these numbers of its ten nodes.
fn push_case(numbers: &[u32; 10], case: &Case, tets: &mut Vec<[u32; 4]>) -> Result<(), NoMemory>
    requires places { IsTrue (has_places case.now) }
    requires count { length (listed case.now) ≡ case.now.len }
    ensures { OnOk result (tets.new.items
        ≡ tets.old.items ++ map (map (λ n. slice_index numbers.now n)) (listed case.now)) }
{
    for n in 0..case.len {
        push(tets, at_places(numbers, case.of[n as usize]))?;
    }
    Ok(())
}

/// The pieces of a lattice tetrahedron with this frame and these vertices, the lowest first.
#[inline(always)]
fn push_framed(
    frame: &Frame,
    a: &TetVertex,
    b: &TetVertex,
    c: &TetVertex,
    d: &TetVertex,
    tets: &mut Vec<[u32; 4]>,
) -> Result<(), NoMemory>
    requires few_a { a.now.nodes.before + 8 < 2 ^ 32 }
    requires few_b { b.now.nodes.before + 8 < 2 ^ 32 }
    requires few_c { c.now.nodes.before + 8 < 2 ^ 32 }
    requires small { IsTrue (are_directions frame.now.directions) }
    ensures { OnOk result (AddsPieces frame.now a.now b.now c.now d.now tets.old.items tets.new.items) }
{
    let case = case_of_signs([a.sign, b.sign, c.sign, d.sign], frame.is_turned);
    if case.len == 0 {
        return Ok(());
    }
    let numbers = ten_numbers(a.nodes, b.nodes, c.nodes, d.nodes, frame.directions);
    push_case(&numbers, case, tets)
}

/// The pieces of the lattice tetrahedron of a kind, given its lowest vertex and all neighbours upwards of this.
#[inline(always)]
fn push_kind(kind: usize, around: &[TetVertex; 8], tets: &mut Vec<[u32; 4]>) -> Result<(), NoMemory>
    requires kind { kind < 6 }
    requires few { (k : ℕ) → k < 8 → (tet_vertex_at around.now k).nodes.before + 8 < 2 ^ 32 }
    ensures { OnOk result (AddsKind kind around.now tets.old.items tets.new.items) }
{
    let frame = frame_of_kind(kind);
    let upper = frame.directions;
    push_framed(
        frame,
        &around[0],
        &around[upper[0] as usize],
        &around[upper[1] as usize],
        &around[upper[2] as usize],
        tets,
    )
}

/// The pieces of the lattice tetrahedra whose lowest vertex is `v`, by node numbers, where `later` are the ids of all its
/// neighbours upwards.
pub fn push_kinds(
    states: &States,
    starts: &Starts,
    v: Vertex,
    id: u32,
    later: &Later,
    tets: &mut Vec<[u32; 4]>,
) -> Result<(), NoMemory>
    requires padded { ArePadded states.now.dims states.now.states }
    requires numbers { NumbersLayers states.now.dims states.now.states v.h starts.now }
    requires domain { InDomain states.now.dims v }
    requires id { id ≡ id_of states.now.dims v }
    requires later { AreLater states.now.dims v later.now }
    requires below { AreBelow (length (vertices states.now.dims)) later.now }
    ensures { OnOk result (tets.new.items
        ≡ tets.old.items ++ numbered_from states.now.dims states.now.states v) }
{
    let around = tet_vertices(states, starts, id, later);
    for kind in 0..6 {
        push_kind(kind, &around, tets)?;
    }
    Ok(())
}
