ghost use Rattle.std.specs.Prelude.{◌≡◌, ◌+◌, ◌*◌, ◌^◌, ◌<◌, ◌≤◌, ◌++◌, ◌∷◌, [], All, IfOk, OnOk, map};
ghost use Rattle.std.specs.List.{list_any};
ghost use Rattle.definitions.specs.Lattice.{InDomain, id as id_of};
ghost use Rattle.definitions.specs.Mesh.{all_pieces, ArePadded, state_at};
ghost use Rattle.definitions.specs.States.{sign_of_state};
ghost use Rattle.definitions.specs.Tetrahedra.{IsLatticeTet, tets_from};
ghost use Rattle.lattice_laws.specs.Ascending.{Has};
ghost use Rattle.mesh_lists.specs.Layers.{NumbersLayers};
ghost use Rattle.mesh_lists.specs.Parts.{keys_of_vertex, numbered, numbered_from, numbered_in};
ghost use Rattle.vertex_numbers.specs.Numbering.{HoldsKey, NumbersMesh, number_in, used_in};

use crate::kinds::push_kinds;
use crate::list::push;
use crate::whole::{push_six, whole_numbers};
use bcc_lattice::{Tet, first_vertex, next_vertex, tets_at, vertex_count};
use snap_rule::States;
use st_base::{NoMemory, Sign, Vertex};
use std::alloc::Global;
use stencils::pieces;
use vertex_numbers::{Starts, later_ids};

/// The signs of the vertices of a lattice tetrahedron.
fn signs_of(states: &States, tet: &Tet) -> [Sign; 4]
    requires lattice { IsLatticeTet states.now.dims tet.now.at }
    requires ids { tet.now.ids ≡ map (id_of states.now.dims) tet.now.at }
    ensures { result ≡ map (λ n. sign_of_state (state_at states.now.states n)) tet.now.ids }
{
    let [a, b, c, d] = tet.ids;
    [
        states.sign(a),
        states.sign(b),
        states.sign(c),
        states.sign(d),
    ]
}

/// The node numbers of a piece.
fn numbers_of(starts: &Starts, keys: [u32; 4]) -> [u32; 4]
    requires { All (HoldsKey starts.now) keys }
    ensures { result ≡ map (number_in starts.now) keys }
{
    let [a, b, c, d] = keys;
    [
        starts.number(a),
        starts.number(b),
        starts.number(c),
        starts.number(d),
    ]
}

/// The pieces of a lattice tetrahedron whose lowest vertex is `v`, by node numbers.
fn push_pieces(
    states: &States,
    starts: &Starts,
    v: Vertex,
    tet: &Tet,
    tets: &mut Vec<[u32; 4]>,
) -> Result<(), NoMemory>
    requires padded { ArePadded states.now.dims states.now.states }
    requires numbers { NumbersLayers states.now.dims states.now.states v.h starts.now }
    requires domain { InDomain states.now.dims v }
    requires lowest { Has tet.now.at (tets_from states.now.dims v) }
    requires lattice { IsLatticeTet states.now.dims tet.now.at }
    requires ids { tet.now.ids ≡ map (id_of states.now.dims) tet.now.at }
    requires small { All (λ id. 8 * id + 7 < 2 ^ 32) tet.now.ids }
    ensures { OnOk result (tets.new.items
        ≡ tets.old.items ++ numbered_in states.now.dims states.now.states tet.now.at) }
{
    let pieces = pieces(tet, signs_of(states, tet));
    for n in 0..pieces.len {
        push(tets, numbers_of(starts, pieces.of[n as usize]))?;
    }
    Ok(())
}

/// The pieces of the lattice tetrahedra whose lowest vertex is `v`, by node numbers, also where it lacks neighbours upwards.
fn push_tets_at_rim(
    states: &States,
    starts: &Starts,
    v: Vertex,
    tets: &mut Vec<[u32; 4]>,
) -> Result<(), NoMemory>
    requires padded { ArePadded states.now.dims states.now.states }
    requires numbers { NumbersLayers states.now.dims states.now.states v.h starts.now }
    requires domain { InDomain states.now.dims v }
    ensures { OnOk result (tets.new.items
        ≡ tets.old.items ++ numbered_from states.now.dims states.now.states v) }
{
    let from = tets_at(states.dims(), v);
    for n in 0..from.len {
        push_pieces(states, starts, v, &from.of[n as usize], tets)?;
    }
    Ok(())
}

/// The pieces of the lattice tetrahedra whose lowest vertex is `v`, by node numbers.
pub fn push_tets_from(
    states: &States,
    starts: &Starts,
    v: Vertex,
    id: u32,
    tets: &mut Vec<[u32; 4]>,
) -> Result<(), NoMemory>
    requires padded { ArePadded states.now.dims states.now.states }
    requires numbers { NumbersLayers states.now.dims states.now.states v.h starts.now }
    requires domain { InDomain states.now.dims v }
    requires id { id ≡ id_of states.now.dims v }
    ensures { OnOk result (tets.new.items
        ≡ tets.old.items ++ numbered_from states.now.dims states.now.states v) }
{
    match later_ids(states.dims(), v, id) {
        Some(later) => push_kinds(states, starts, v, id, &later, tets),
        None => push_tets_at_rim(states, starts, v, tets),
    }
}

/// The pieces of the lattice tetrahedra whose lowest vertex is `v`, by node numbers; at once where neither the vertex
/// nor an edge upwards from it is a node, since then none of these lattice tetrahedra has a piece, and where all of
/// them are whole.
fn push_tets_at(
    states: &States,
    starts: &Starts,
    v: Vertex,
    id: u32,
    tets: &mut Vec<[u32; 4]>,
) -> Result<(), NoMemory>
    requires padded { ArePadded states.now.dims states.now.states }
    requires numbers { NumbersLayers states.now.dims states.now.states v.h starts.now }
    requires domain { InDomain states.now.dims v }
    requires id { id ≡ id_of states.now.dims v }
    requires small { id < 2 ^ 27 }
    ensures { OnOk result (tets.new.items
        ≡ tets.old.items ++ numbered_from states.now.dims states.now.states v) }
{
    if !starts.has_nodes(id) {
        return Ok(());
    }
    match whole_numbers(states, starts, v, id) {
        Some(whole) => push_six(tets, &whole),
        None => push_tets_from(states, starts, v, id, tets),
    }
}

/// The tetrahedra, of which there are about `count`, in the order of lattice tetrahedra.
pub fn tets_of(
    alloc: Global,
    states: &States,
    starts: &Starts,
    count: usize,
) -> Result<Vec<[u32; 4]>, NoMemory>
    requires padded { ArePadded states.now.dims states.now.states }
    requires numbers { NumbersMesh states.now.dims states.now.states starts.now }
    ensures { IfOk result (λ tets. tets.items
        ≡ numbered states.now.dims states.now.states (all_pieces states.now.dims states.now.states)) }
{
    let dims = states.dims();
    let Ok(mut tets) = Vec::with_capacity(alloc, count) else {
        return Err(NoMemory);
    };
    let mut v = first_vertex(0);
    for id in 0..vertex_count(dims) {
        push_tets_at(states, starts, v, id, &mut tets)?;
        v = next_vertex(dims, v);
    }
    Ok(tets)
}
