ghost use Rattle.std.specs.Prelude.{◌≡◌, ◌+◌, ◌-◌, ◌^◌, ◌<◌, ◌≤◌, ◌++◌, ◌∷◌, [], IfOk, OnOk, filter, length, map, if◌then◌else◌, unsigned_abs};
ghost use Rattle.std.specs.List.{range_with_len};
ghost use Rattle.definitions.specs.Lattice.{InDomain, id as id_of, vertex_at, vertices};
ghost use Rattle.definitions.specs.Mesh.{edge_cut, node_place, state_at};
ghost use Rattle.definitions.specs.Places.{state_place};
ghost use Rattle.definitions.specs.Values.{value};
ghost use Rattle.mesh_lists.specs.Parts.{place_on_edge, keys_at, keys_of_ids};
ghost use Rattle.vertex_numbers.specs.Bits.{has_bit};
ghost use Rattle.vertex_numbers.specs.Numbering.{NumbersIds, TellsUsed};

use crate::list::push;
use bcc_lattice::{Dir, cut_place, neighbour, next_vertex, place};
use cut_points::cut;
use samples::Field;
use snap_rule::States;
use st_base::{NoMemory, Place, Vertex};
use std::alloc::Global;
use vertex_numbers::{Starts, Walk};

/// The number of the cut on the edge from a vertex with value `own` in a direction, 0 where there is none.
#[inline(always)]
#[tactic(auto, using(std::proofs::lemmas::Grind::common_steps))]
fn cut_from(field: &Field, own: i64, v: Vertex, dir: Dir) -> u16
    requires domain { InDomain field.now.dims v }
    requires own { own ≡ value field.now v }
    requires small { unsigned_abs own ≤ 2 ^ 40 }
    ensures { result ≡ edge_cut field.now v dir }
{
    let Some(w) = neighbour(field.dims(), v, dir, true) else {
        return 0;
    };
    cut(own, field.value(w)).unwrap_or(0)
}

/// The number of the cut on the edge from a vertex in a direction, 0 where there is none.
pub fn edge_cut(field: &Field, v: Vertex, dir: Dir) -> u16
    requires { InDomain field.now.dims v }
    ensures { result ≡ edge_cut field.now v dir }
{
    cut_from(field, field.value(v), v, dir)
}

/// The place of the cut on the edge from a vertex with value `own` in a direction, 1 to 7.
pub fn place_on_edge(field: &Field, own: i64, v: Vertex, dir: u8) -> Place
    requires domain { InDomain field.now.dims v }
    requires own { own ≡ value field.now v }
    requires small { unsigned_abs own ≤ 2 ^ 40 }
    requires low { 1 ≤ dir }
    requires high { dir < 8 }
    ensures { result ≡ place_on_edge field.now v dir }
{
    let Some(dir) = Dir::new(dir) else {
        unreachable!()
    };
    cut_place(v, dir, cut_from(field, own, v, dir))
}

/// The place of a vertex, if its bits say that it is a node.
#[inline(always)]
fn push_vertex(
    states: &States,
    v: Vertex,
    id: u32,
    bits: u8,
    places: &mut Vec<Place>,
) -> Result<(), NoMemory>
    requires domain { id < length (vertices states.now.dims) }
    ensures { OnOk result (places.new.items ≡ places.old.items
        ++ (if has_bit bits 0 then state_place v (state_at states.now.states id) ∷ [] else [])) }
{
    if bits % 2 == 1 {
        push(places, place(v, states.state_by_id(id)))
    } else {
        Ok(())
    }
}

/// The place of the cut in a direction, if the bits of the vertex say that there is one.
#[inline(always)]
fn push_cut(
    field: &Field,
    own: i64,
    v: Vertex,
    bits: u8,
    dir: u8,
    places: &mut Vec<Place>,
) -> Result<(), NoMemory>
    requires domain { InDomain field.now.dims v }
    requires own { own ≡ value field.now v }
    requires small { unsigned_abs own ≤ 2 ^ 40 }
    requires low { 1 ≤ dir }
    requires high { dir < 8 }
    ensures { OnOk result (places.new.items ≡ places.old.items
        ++ (if has_bit bits dir then place_on_edge field.now v dir ∷ [] else [])) }
{
    if (bits >> dir) % 2 == 1 {
        push(places, place_on_edge(field, own, v, dir))
    } else {
        Ok(())
    }
}

/// The places of the cuts in the directions upwards that the bits of a vertex say.
fn push_cuts(field: &Field, v: Vertex, bits: u8, places: &mut Vec<Place>) -> Result<(), NoMemory>
    requires domain { InDomain field.now.dims v }
    ensures { OnOk result (places.new.items ≡ places.old.items
        ++ map (place_on_edge field.now v) (filter (has_bit bits) (range_with_len 1 7))) }
{
    let own = field.value(v);
    for dir in 1..8u8 {
        push_cut(field, own, v, bits, dir, places)?;
    }
    Ok(())
}

/// The places of the nodes at a vertex.
#[inline(always)]
fn push_nodes(
    field: &Field,
    states: &States,
    starts: &Starts,
    v: Vertex,
    id: u32,
    places: &mut Vec<Place>,
) -> Result<(), NoMemory>
    requires sizes { states.now.dims ≡ field.now.dims }
    requires used { TellsUsed field.now.dims states.now.states starts.now }
    requires domain { InDomain field.now.dims v }
    requires id { id ≡ id_of field.now.dims v }
    requires low { starts.now.first ≤ id }
    requires high { id < starts.now.first + starts.now.len }
    ensures { OnOk result (places.new.items ≡ places.old.items
        ++ map (node_place field.now states.now.states) (keys_at field.now.dims states.now.states id)) }
{
    let bits = starts.bits(id);
    push_vertex(states, v, id, bits, places)?;
    if bits < 2 {
        return Ok(());
    }
    push_cuts(field, v, bits, places)
}

/// The places of the nodes of the vertices of the ids from `start` on and before `end`, in the order of their keys, `v`
/// being the first vertex; room is taken beforehand for `count` of them.
pub fn places_of(
    alloc: Global,
    count: u32,
    field: &Field,
    states: &States,
    starts: &Starts,
    v: Vertex,
    start: u32,
    end: u32,
) -> Result<Vec<Place>, NoMemory>
    requires sizes { states.now.dims ≡ field.now.dims }
    requires numbers { NumbersIds field.now.dims states.now.states start end starts.now }
    requires first { start < length (vertices field.now.dims) → v ≡ vertex_at field.now.dims start }
    requires some { start ≤ end }
    requires within { end ≤ length (vertices field.now.dims) }
    ensures { IfOk result (λ places. places.items
        ≡ map (node_place field.now states.now.states) (keys_of_ids field.now.dims states.now.states start (end - start))) }
{
    let dims = field.dims();
    let Ok(mut places) = Vec::with_capacity(alloc, count as usize) else {
        return Err(NoMemory);
    };
    let mut at = Walk::from(starts, dims, v, start, end);
    while at.id < end {
        push_nodes(field, states, starts, at.v, at.id, &mut places)?;
        at = Walk::from(starts, dims, next_vertex(dims, at.v), at.id + 1, end);
    }
    Ok(places)
}
