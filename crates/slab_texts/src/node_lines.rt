ghost use Rattle.std.specs.Prelude.{◌≡◌, ◌+◌, ◌-◌, ◌*◌, ◌^◌, ◌<◌, ◌≤◌, ◌∷◌, [], OnOk, filter, if◌then◌else◌, length, map, true, unsigned_abs, ℕ};
ghost use Rattle.std.specs.List.{range_with_len};
ghost use Rattle.definitions.specs.Lattice.{InDomain, id as id_of, vertex_at, vertices};
ghost use Rattle.definitions.specs.Mesh.{state_at};
ghost use Rattle.definitions.specs.Places.{state_place};
ghost use Rattle.definitions.specs.Values.{value};
ghost use Rattle.mesh_texts.specs.Nodes.{node_of_key};
ghost use Rattle.mesh_lists.specs.Parts.{keys_at, keys_of_ids, place_on_edge};
ghost use Rattle.node_ele_write.specs.Printable.{IsPrintable};
ghost use Rattle.vertex_numbers.specs.Bits.{has_bit};
ghost use Rattle.vertex_numbers.specs.Numbering.{NumbersIds, TellsUsed};
ghost use Rattle.slab_texts.specs.NodeLines.{AddsNodes, ArePrintable, edge_node, vertex_node};

use bcc_lattice::{next_vertex, place, sign_of};
use definitions::Sign;
use mesh_lists::place_on_edge;
use node_ele_write::Pen;
use samples::Field;
use snap_rule::States;
use st_base::{Frame, NoMemory, Place, Vertex};
use vertex_numbers::{Starts, Walk};

/// Lines of nodes, and the number of the next one.
#[derive(Drop)]
pub struct NodeLines {
    pub text: Vec<u8>,
    pub number: u32,
}

// The line of a node.
fn push_line(
    place: Place,
    level: bool,
    frame: &Frame,
    pen: &mut Pen,
    out: &mut NodeLines,
) -> Result<(), NoMemory>
    requires printable { IsPrintable frame.now place }
    requires room { out.old.number + 1 < 2 ^ 32 }
    ensures adds { OnOk result (AddsNodes frame.now out.old (record { place = place; level = level } ∷ []) out.new) }
    ensures few { out.new.number ≤ out.old.number + 1 }
{
    pen.node_line(&mut out.text, out.number, place, frame, level)?;
    out.number += 1;
    Ok(())
}

// The line of a vertex, if its bits say that it is a node.
#[inline(always)]
fn push_vertex(
    states: &States,
    v: Vertex,
    id: u32,
    bits: u8,
    frame: &Frame,
    pen: &mut Pen,
    out: &mut NodeLines,
) -> Result<(), NoMemory>
    requires below { id < length (vertices states.now.dims) }
    requires printable { has_bit bits 0 ≡ true → IsPrintable frame.now (state_place v (state_at states.now.states id)) }
    requires room { out.old.number + 1 < 2 ^ 32 }
    ensures adds { OnOk result (AddsNodes frame.now out.old
        (if has_bit bits 0 then vertex_node v (state_at states.now.states id) ∷ [] else []) out.new) }
    ensures few { out.new.number ≤ out.old.number + 1 }
{
    if bits % 2 == 1 {
        let state = states.state_by_id(id);
        let level = sign_of(state) == Sign::Zero;
        push_line(place(v, state), level, frame, pen, out)
    } else {
        Ok(())
    }
}

// The line of the cut in a direction, if the bits of the vertex say that there is one.
#[inline(always)]
fn push_cut(
    field: &Field,
    own: i64,
    v: Vertex,
    bits: u8,
    dir: u8,
    frame: &Frame,
    pen: &mut Pen,
    out: &mut NodeLines,
) -> Result<(), NoMemory>
    requires domain { InDomain field.now.dims v }
    requires own { own ≡ value field.now v }
    requires small { unsigned_abs own ≤ 2 ^ 40 }
    requires low { 1 ≤ dir }
    requires high { dir < 8 }
    requires printable { has_bit bits dir ≡ true → IsPrintable frame.now (place_on_edge field.now v dir) }
    requires room { out.old.number + 1 < 2 ^ 32 }
    ensures adds { OnOk result (AddsNodes frame.now out.old
        (if has_bit bits dir then edge_node field.now v dir ∷ [] else []) out.new) }
    ensures few { out.new.number ≤ out.old.number + 1 }
{
    if (bits >> dir) % 2 == 1 {
        let place = place_on_edge(field, own, v, dir);
        push_line(place, true, frame, pen, out)
    } else {
        Ok(())
    }
}

// The lines of the cuts in the directions upwards that the bits of a vertex say.
fn push_cuts(
    field: &Field,
    v: Vertex,
    bits: u8,
    frame: &Frame,
    pen: &mut Pen,
    out: &mut NodeLines,
) -> Result<(), NoMemory>
    requires domain { InDomain field.now.dims v }
    requires printable { (dir : ℕ) → 1 ≤ dir → dir < 8 → has_bit bits dir ≡ true → IsPrintable frame.now (place_on_edge field.now v dir) }
    requires room { out.old.number + 7 < 2 ^ 32 }
    ensures adds { OnOk result (AddsNodes frame.now out.old
        (map (edge_node field.now v) (filter (has_bit bits) (range_with_len 1 7))) out.new) }
    ensures few { out.new.number ≤ out.old.number + 7 }
{
    let own = field.value(v);
    for dir in 1..8u8 {
        push_cut(field, own, v, bits, dir, frame, pen, out)?;
    }
    Ok(())
}

// The lines of the nodes at a vertex.
#[inline(always)]
fn push_nodes(
    field: &Field,
    states: &States,
    starts: &Starts,
    v: Vertex,
    id: u32,
    frame: &Frame,
    pen: &mut Pen,
    out: &mut NodeLines,
) -> Result<(), NoMemory>
    requires sizes { states.now.dims ≡ field.now.dims }
    requires used { TellsUsed field.now.dims states.now.states starts.now }
    requires domain { InDomain field.now.dims v }
    requires id { id ≡ id_of field.now.dims v }
    requires below { id < length (vertices field.now.dims) }
    requires low { starts.now.first ≤ id }
    requires high { id < starts.now.first + starts.now.len }
    requires printable { ArePrintable frame.now field.now states.now.states }
    requires room { out.old.number + 8 < 2 ^ 32 }
    ensures adds { OnOk result (AddsNodes frame.now out.old
        (map (node_of_key field.now states.now.states) (keys_at field.now.dims states.now.states id)) out.new) }
    ensures few { out.new.number ≤ out.old.number + 8 }
{
    let bits = starts.bits(id);
    push_vertex(states, v, id, bits, frame, pen, out)?;
    if bits < 2 {
        return Ok(());
    }
    push_cuts(field, v, bits, frame, pen, out)
}

/// The lines of the nodes of the vertices of the ids from `start` on and before `end`, `v` being the first vertex.
pub fn push_lines(
    field: &Field,
    states: &States,
    starts: &Starts,
    v: Vertex,
    start: u32,
    end: u32,
    frame: &Frame,
    pen: &mut Pen,
    out: &mut NodeLines,
) -> Result<(), NoMemory>
    requires sizes { states.now.dims ≡ field.now.dims }
    requires numbers { NumbersIds field.now.dims states.now.states start end starts.now }
    requires first { start < length (vertices field.now.dims) → v ≡ vertex_at field.now.dims start }
    requires some { start ≤ end }
    requires within { end ≤ length (vertices field.now.dims) }
    requires printable { ArePrintable frame.now field.now states.now.states }
    requires room { out.old.number + 8 * (end - start) < 2 ^ 32 }
    ensures { OnOk result (AddsNodes frame.now out.old
        (map (node_of_key field.now states.now.states) (keys_of_ids field.now.dims states.now.states start (end - start))) out.new) }
{
    let dims = field.dims();
    let mut at = Walk::from(starts, dims, v, start, end);
    while at.id < end {
        push_nodes(field, states, starts, at.v, at.id, frame, pen, out)?;
        at = Walk::from(starts, dims, next_vertex(dims, at.v), at.id + 1, end);
    }
    Ok(())
}
