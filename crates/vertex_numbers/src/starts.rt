ghost use Rattle.std.specs.Prelude.{◌≡◌, ◌≤◌, ◌<◌, ◌+◌, ◌-◌, ◌*◌, ◌^◌, ◌++◌, ◌∷◌, [], ℕ, count_ones, length, if◌then◌else◌, IfOk, slice_index};
ghost use Rattle.std.specs.List.{list_any, range_with_len};
ghost use Rattle.definitions.specs.Lattice.{InDomain, IsDims, id, layers, vertices};
ghost use Rattle.definitions.specs.Layout.{layer_start};
ghost use Rattle.definitions.specs.Mesh.{ArePadded, node_keys};
ghost use Rattle.lattice_counts.specs.Counts.{row_len};
ghost use Rattle.node_laws.specs.Used.{told};
ghost use Rattle.vertex_numbers.specs.Counts.{layer_counts, row_start};
ghost use Rattle.vertex_numbers.specs.Numbering.{HasRoom, HoldsKey, IsDraft, IsEmpty, NumbersIds, NumbersMesh, mesh_bits, nodes_before, number_in, used_in};
ghost use Rattle.vertex_numbers.specs.Rows.{AreAlikeWithin, IsRow, sign_if_plus};
ghost use Rattle.vertex_numbers.specs.VertexNodes.{AreNodesAt};

use crate::Offsets;
use crate::nodes::nodes_at;
use crate::runs::{Row, Run, row_of, run_after};
use crate::vertex_nodes::VertexNodes;
use bcc_lattice::{columns, ids_below, layers, rows, vertex_in_row};
use snap_rule::States;
use st_base::{Dims, NoMemory, Vertex};
use std::alloc::Global;
use std::marker::Model;

/// The nodes at the vertices of some ids, and their numbers: for each vertex how many nodes of the mesh
/// stand before its first, and the bits of its own. Contracts see which occur, and their numbers.
///
/// Each vertex has one count and one byte, and each count is more than eight below 2^32.
#[derive(Drop)]
pub struct Starts {
    first: u32,
    before: Vec<u32>,
    nodes: Vec<u8>,
}

impl Model for Starts {
    ghost use Rattle.std.specs.Prelude.{length};
    ghost use Rattle.vertex_numbers.specs.Numbering.{AreStarts, Numbering};

    ghost Value = { Numbering };

    ghost view = { λ s. record { first = s.first; len = length s.nodes.items; nodes = s.nodes.items; before = s.before.items } };

    ghost invariant = { λ s. AreStarts s.nodes.items s.before.items };
}

/// Starts of the ids from `first` on as far as they are worked out, and how many nodes stand before the next.
#[derive(Drop)]
pub struct Draft {
    pub first: u32,
    pub before: Vec<u32>,
    pub nodes: Vec<u8>,
    pub count: u32,
}

/// Starts of the ids of some layers, and how many nodes stand before the next layer.
#[derive(Drop)]
pub struct Numbered {
    pub starts: Starts,
    pub count: u32,
}

/// The bits of the nodes at a vertex.
fn bits_at(states: &States, dims: Dims, v: Vertex) -> u8
    requires dims { dims ≡ states.now.dims }
    requires sizes { IsDims dims }
    requires padded { ArePadded states.now.dims states.now.states }
    requires domain { InDomain dims v }
    ensures { result ≡ mesh_bits dims states.now.states (id dims v) }
{
    let mut source = states;
    nodes_at(&mut source, dims, v)
}

/// The run after place `i` of a row.
#[inline(always)]
fn run_at(states: &States, dims: Dims, row: Row, i: u32) -> Run
    requires dims { dims ≡ states.now.dims }
    requires sizes { IsDims dims }
    requires row { IsRow states.now.dims row }
    requires place { i < row_len states.now.dims.nx row.h }
    ensures alike { AreAlikeWithin states.now.dims (told states.now.dims states.now.states) row (i + 1) result.end (sign_if_plus result.is_plus) }
    ensures low { i < result.end }
    ensures high { result.end ≤ row_len states.now.dims.nx row.h }
{
    let mut source = states;
    run_after(&mut source, dims, row, i)
}

/// The starts of no ids yet, from an id on before which so many nodes stand.
fn empty(alloc: Global, first: u32, len: usize, count: u32) -> Result<Draft, NoMemory>
    ensures { IfOk result (λ draft. IsEmpty first count draft) }
{
    let Ok(before) = Vec::with_capacity(alloc, len) else {
        return Err(NoMemory);
    };
    let Ok(nodes) = Vec::with_capacity(alloc, len) else {
        return Err(NoMemory);
    };
    Ok(Draft {
        first,
        before,
        nodes,
        count,
    })
}

/// The start of one more id, whose vertex has nodes of these bits.
#[inline(always)]
fn push_one(draft: &mut Draft, bits: u8)
    requires few { draft.old.count + count_ones bits < 2 ^ 32 }
    requires room { HasRoom draft.old 1 }
    ensures first { draft.new.first ≡ draft.old.first }
    ensures nodes { draft.new.nodes.items ≡ draft.old.nodes.items ++ bits ∷ [] }
    ensures before { draft.new.before.items ≡ draft.old.before.items ++ draft.old.count ∷ [] }
    ensures count { draft.new.count ≡ draft.old.count + count_ones bits }
    ensures room { (n : ℕ) → HasRoom draft.old (n + 1) → HasRoom draft.new n }
{
    draft.before.push_reserved(draft.count);
    draft.nodes.push_reserved(bits);
    draft.count += bits.count_ones();
}

/// The bits of the nodes at a vertex that is Plus, or Minus, with all its neighbours upwards.
#[inline(always)]
fn bits_if_plus(is_plus: bool) -> u8
    ensures { result ≡ (if is_plus then 1 else 0) }
{
    if is_plus { 1 } else { 0 }
}

/// The starts of so many ids from `_id` on, whose vertices are Plus, or Minus, with all their neighbours upwards.
#[inline(always)]
fn push_run(_states: &States, _id: u32, draft: &mut Draft, is_plus: bool, len: u32)
    requires dims { IsDims _states.now.dims }
    requires draft { IsDraft _states.now.dims _states.now.states _id draft.old }
    requires within { _id + len ≤ length (vertices _states.now.dims) }
    requires bits { (n : ℕ) → _id ≤ n → n < _id + len → mesh_bits _states.now.dims _states.now.states n ≡ (if is_plus then 1 else 0) }
    requires room { HasRoom draft.old len }
    ensures draft { IsDraft _states.now.dims _states.now.states (_id + len) draft.new }
    ensures first { draft.new.first ≡ draft.old.first }
    ensures room { (n : ℕ) → HasRoom draft.old (len + n) → HasRoom draft.new n }
{
    let bits = bits_if_plus(is_plus);
    for _ in 0..len {
        push_one(draft, bits);
    }
}

/// The starts of the ids of the vertex at place `i` of a row and of the run after it, and the place after these.
#[inline(always)]
#[tactic(auto, using(lattice_counts::proofs::Sizes::nx_small, lattice_counts::proofs::Sizes::ny_small))]
fn push_from(states: &States, dims: Dims, row: Row, i: u32, draft: &mut Draft) -> u32
    requires dims { dims ≡ states.now.dims }
    requires sizes { IsDims dims }
    requires padded { ArePadded states.now.dims states.now.states }
    requires row { IsRow states.now.dims row }
    requires place { i < row_len states.now.dims.nx row.h }
    requires draft { IsDraft states.now.dims states.now.states (row.start + i) draft.old }
    requires room { HasRoom draft.old (row_len states.now.dims.nx row.h - i) }
    ensures draft { IsDraft states.now.dims states.now.states (row.start + result) draft.new }
    ensures first { draft.new.first ≡ draft.old.first }
    ensures room { HasRoom draft.new (row_len states.now.dims.nx row.h - result) }
    ensures low { i < result }
    ensures high { result ≤ row_len states.now.dims.nx row.h }
{
    push_one(draft, bits_at(states, dims, vertex_in_row(row.h, row.j, i)));
    let run = run_at(states, dims, row, i);
    push_run(
        states,
        row.start + (i + 1),
        draft,
        run.is_plus,
        run.end - (i + 1),
    );
    run.end
}

/// The starts of the ids of a row at the end.
#[inline(always)]
fn with_row(states: &States, dims: Dims, row: Row, draft: Draft) -> Draft
    requires dims { dims ≡ states.now.dims }
    requires sizes { IsDims dims }
    requires padded { ArePadded states.now.dims states.now.states }
    requires row { IsRow states.now.dims row }
    requires draft { IsDraft states.now.dims states.now.states row.start draft }
    requires room { HasRoom draft (row_len states.now.dims.nx row.h) }
    ensures draft { IsDraft states.now.dims states.now.states (row.start + row_len states.now.dims.nx row.h) result }
    ensures first { result.first ≡ draft.first }
{
    let mut draft = draft;
    let mut i = 0;
    while i < columns(dims, row.h) {
        i = push_from(states, dims, row, i, &mut draft);
    }
    draft
}

/// A draft with room for so many more ids.
fn with_room(draft: Draft, len: u32) -> Result<Draft, NoMemory>
    ensures room { IfOk result (λ new. HasRoom new len) }
    ensures first { IfOk result (λ new. new.first ≡ draft.first) }
    ensures nodes { IfOk result (λ new. new.nodes.items ≡ draft.nodes.items) }
    ensures before { IfOk result (λ new. new.before.items ≡ draft.before.items) }
    ensures count { IfOk result (λ new. new.count ≡ draft.count) }
{
    let mut draft = draft;
    if draft.before.reserve(len as usize).is_err() {
        return Err(NoMemory);
    }
    if draft.nodes.reserve(len as usize).is_err() {
        return Err(NoMemory);
    }
    Ok(draft)
}

/// The starts of the ids of row `j` of layer `h` at the end.
fn push_row(states: &States, h: u32, j: u32, draft: Draft) -> Result<Draft, NoMemory>
    requires dims { IsDims states.now.dims }
    requires padded { ArePadded states.now.dims states.now.states }
    requires layer { h < layers states.now.dims }
    requires row { j < row_len states.now.dims.ny h }
    requires draft { IsDraft states.now.dims states.now.states (row_start states.now.dims h j) draft }
    ensures draft { IfOk result (IsDraft states.now.dims states.now.states (row_start states.now.dims h (j + 1))) }
    ensures first { IfOk result (λ new. new.first ≡ draft.first) }
{
    let dims = states.dims();
    let draft = with_room(draft, columns(dims, h))?;
    Ok(with_row(states, dims, row_of(dims, h, j), draft))
}

/// The starts of the ids of layer `h` at the end.
#[tactic(auto, using(lattice_counts::proofs::Sizes::ny_small))]
fn push_layer(states: &States, h: u32, draft: Draft) -> Result<Draft, NoMemory>
    requires dims { IsDims states.now.dims }
    requires padded { ArePadded states.now.dims states.now.states }
    requires layer { h < layers states.now.dims }
    requires draft { IsDraft states.now.dims states.now.states (layer_start states.now.dims h) draft }
    ensures draft { IfOk result (IsDraft states.now.dims states.now.states (layer_start states.now.dims (h + 1))) }
    ensures first { IfOk result (λ new. new.first ≡ draft.first) }
{
    let mut draft = draft;
    for j in 0..rows(states.dims(), h) {
        draft = push_row(states, h, j, draft)?;
    }
    Ok(draft)
}

/// The starts of the ids of the layers from `from` on and before `to`, where `count` nodes stand before the
/// first of them.
fn drafted(
    alloc: Global,
    states: &States,
    from: u32,
    to: u32,
    count: u32,
) -> Result<Draft, NoMemory>
    requires dims { IsDims states.now.dims }
    requires padded { ArePadded states.now.dims states.now.states }
    requires some { from < to }
    requires within { to ≤ layers states.now.dims }
    requires count { count ≡ nodes_before states.now.dims states.now.states (layer_start states.now.dims from) }
    ensures draft { IfOk result (IsDraft states.now.dims states.now.states (layer_start states.now.dims to)) }
    ensures first { IfOk result (λ draft. draft.first ≡ layer_start states.now.dims from) }
{
    let dims = states.dims();
    let first = ids_below(dims, from);
    let end = ids_below(dims, to);
    let mut draft = empty(alloc, first, (end - first) as usize, count)?;
    for h in from..to {
        draft = push_layer(states, h, draft)?;
    }
    Ok(draft)
}

/// The nodes at the vertices of the layers from `from` on and before `to`, where `count` nodes stand before the
/// first of them, and how many stand before the vertex after the last.
fn starts_from(
    alloc: Global,
    states: &States,
    from: u32,
    to: u32,
    count: u32,
) -> Result<Numbered, NoMemory>
    requires dims { IsDims states.now.dims }
    requires padded { ArePadded states.now.dims states.now.states }
    requires some { from < to }
    requires within { to ≤ layers states.now.dims }
    requires count { count ≡ nodes_before states.now.dims states.now.states (layer_start states.now.dims from) }
    ensures numbers { IfOk result (λ n. NumbersIds states.now.dims states.now.states (layer_start states.now.dims from) (layer_start states.now.dims to) n.starts) }
    ensures count { IfOk result (λ n. n.count ≡ nodes_before states.now.dims states.now.states (layer_start states.now.dims to)) }
{
    let Draft {
        first,
        before,
        nodes,
        count,
    } = drafted(alloc, states, from, to, count)?;
    Ok(Numbered {
        starts: Starts {
            first,
            before,
            nodes,
        },
        count,
    })
}

impl Starts {
    /// The nodes at the vertices of the layers from `from` on and before `to`.
    pub fn of_layers(
        alloc: Global,
        states: &States,
        offsets: &Offsets,
        from: u32,
        to: u32,
    ) -> Result<Starts, NoMemory>
        requires dims { IsDims states.now.dims }
        requires offsets { offsets.now ≡ layer_counts states.now.dims states.now.states }
        requires padded { ArePadded states.now.dims states.now.states }
        requires some { from < to }
        requires within { to ≤ layers states.now.dims }
        ensures { IfOk result (NumbersIds states.now.dims states.now.states (layer_start states.now.dims from) (layer_start states.now.dims to)) }
    {
        Ok(starts_from(alloc, states, from, to, offsets.node_start(from))?.starts)
    }

    /// The nodes at all vertices, and how many there are.
    #[tactic(auto, using(lattice_counts::proofs::Sizes::nz_small))]
    pub fn of_all(alloc: Global, states: &States) -> Result<Numbered, NoMemory>
        requires { ArePadded states.now.dims states.now.states }
        ensures numbers { IfOk result (λ n. NumbersMesh states.now.dims states.now.states n.starts) }
        ensures count { IfOk result (λ n. n.count ≡ length (node_keys states.now.dims states.now.states)) }
    {
        starts_from(alloc, states, 0, layers(states.dims()), 0)
    }

    /// The nodes at the vertices of layer `h`.
    pub fn of_layer(
        alloc: Global,
        states: &States,
        offsets: &Offsets,
        h: u32,
    ) -> Result<Starts, NoMemory>
        requires dims { IsDims states.now.dims }
        requires offsets { offsets.now ≡ layer_counts states.now.dims states.now.states }
        requires padded { ArePadded states.now.dims states.now.states }
        requires layer { h < layers states.now.dims }
        ensures { IfOk result (NumbersIds states.now.dims states.now.states (layer_start states.now.dims h) (layer_start states.now.dims (h + 1))) }
    {
        Starts::of_layers(alloc, states, offsets, h, h + 1)
    }

    /// Whether the node with a key of one of these vertices occurs.
    pub fn used(&self, key: u32) -> bool
        requires { HoldsKey self.now key }
        ensures { result ≡ used_in self.now key }
    {
        let nodes = self.nodes[(key / 8 - self.first) as usize];
        (nodes >> (key % 8)) % 2 == 1
    }

    /// The bits of the nodes at one of these vertices: bit 0 of itself, bits 1 to 7 of the cuts in directions 1 to 7.
    #[inline(always)]
    pub fn bits(&self, id: u32) -> u8
        requires low { self.now.first ≤ id }
        requires high { id < self.now.first + self.now.len }
        ensures { result ≡ slice_index self.now.nodes (id - self.now.first) }
    {
        self.nodes[(id - self.first) as usize]
    }

    /// The first of the ids from `id` on and before `end` whose vertex is a node or has a cut on one of its edges upwards,
    /// or `end` if there is none.
    #[inline(always)]
    pub fn next_used(&self, id: u32, end: u32) -> u32
        requires low { self.now.first ≤ id }
        requires some { id ≤ end }
        requires high { end ≤ self.now.first + self.now.len }
        ensures none { (n : ℕ) → id ≤ n → n < result → slice_index self.now.nodes (n - self.now.first) ≡ 0 }
        ensures low { id ≤ result }
        ensures high { result ≤ end }
    {
        for n in id..end {
            if self.nodes[(n - self.first) as usize] != 0 {
                return n;
            }
        }
        end
    }

    /// Whether a vertex is a node or has a cut on one of its edges upwards.
    pub fn has_nodes(&self, id: u32) -> bool
        requires low { self.now.first ≤ id }
        requires high { id < self.now.first + self.now.len }
        ensures { result ≡ list_any (used_in self.now) (range_with_len (8 * id) 8) }
    {
        self.nodes[(id - self.first) as usize] != 0
    }

    /// The number of one of these vertices, if it is a node.
    pub fn vertex_number(&self, id: u32) -> u32
        requires low { self.now.first ≤ id }
        requires high { id < self.now.first + self.now.len }
        ensures { result ≡ number_in self.now (8 * id) }
    {
        self.before[(id - self.first) as usize]
    }

    /// The nodes at one of these vertices.
    #[inline(always)]
    pub fn vertex_nodes(&self, id: u32) -> VertexNodes
        requires low { self.now.first ≤ id }
        requires high { id < self.now.first + self.now.len }
        ensures { AreNodesAt self.now id result }
    {
        let at = (id - self.first) as usize;
        VertexNodes {
            before: self.before[at],
            bits: self.nodes[at],
        }
    }

    /// The number of a node of one of these vertices.
    pub fn number(&self, key: u32) -> u32
        requires { HoldsKey self.now key }
        ensures { result ≡ number_in self.now key }
    {
        let at = (key / 8 - self.first) as usize;
        let below = self.nodes[at] % (1 << (key % 8));
        self.before[at] + below.count_ones()
    }
}
