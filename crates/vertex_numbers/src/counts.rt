ghost use Rattle.std.specs.Prelude.{◌≡◌, ◌≤◌, ◌<◌, ◌+◌, ◌-◌, ◌*◌, ◌^◌, length, List, sum_by, if◌then◌else◌};
ghost use Rattle.std.specs.List.{range_with_len};
ghost use Rattle.definitions.specs.declared.State.{State};
ghost use Rattle.definitions.specs.Lattice.{InDomain, IsDims, layers};
ghost use Rattle.definitions.specs.Mesh.{ArePadded, layer_node_keys, layer_pieces};
ghost use Rattle.lattice_counts.specs.Counts.{row_len};
ghost use Rattle.vertex_numbers.specs.Counts.{nodes_at_id, pieces_at_id, row_ids, vertex_nodes, vertex_pieces};
ghost use Rattle.vertex_numbers.specs.Rows.{IsRow};
ghost use Rattle.vertex_numbers.specs.Sources.{Agrees, KnowsAround};

use crate::StateSource;
use crate::around::signs_around;
use crate::nodes::nodes_around;
use crate::pieces::pieces_up;
use crate::runs::{Row, row_of, run_after};
use bcc_lattice::{columns, rows, vertex_in_row};
use st_base::{Dims, Vertex};

/// The numbers of nodes and tetrahedra of the mesh that belong to a layer: the nodes at its vertices and
/// on their edges upwards, and the pieces of the lattice tetrahedra whose lowest vertex is in it.
#[derive(Clone, Copy, Debug, PartialEq, Eq)]
pub struct LayerCount {
    pub h: u32,
    pub nodes: u32,
    pub tets: u64,
}

/// What one vertex adds to the numbers of its layer.
#[derive(Clone, Copy)]
struct Share {
    nodes: u32,
    tets: u64,
}

/// What a vertex adds, by the signs at its neighbours.
#[tactic(auto, unfolding(crate::specs::Counts::vertex_nodes, crate::specs::Counts::vertex_pieces))]
fn share_by_signs<S: StateSource>(from: &mut S, dims: Dims, v: Vertex) -> Share
    requires dims { IsDims dims }
    requires sizes { S.sizes from.old ≡ dims }
    requires domain { InDomain dims v }
    requires known { KnowsAround dims (S.knows from.old) v.h }
    ensures nodes { result.nodes ≡ vertex_nodes dims (S.told from.old) v }
    ensures tets { result.tets ≡ vertex_pieces dims (S.told from.old) v }
    ensures few_nodes { result.nodes ≤ 8 }
    ensures few_tets { result.tets ≤ 18 }
    ensures same { S.unchanged from.old from.new }
{
    let around = signs_around(from, dims, v);
    let tets = pieces_up(&around) as u64;
    let nodes = nodes_around(from, dims, v, &around).count_ones();
    Share { nodes, tets }
}

/// What so many vertices add that are all Plus, or all Minus, with their neighbours upwards.
#[inline(always)]
fn share_of_run(is_plus: bool, len: u32) -> Share
    requires { len < 2 ^ 24 }
    ensures nodes { result.nodes ≡ len * (if is_plus then 1 else 0) }
    ensures tets { result.tets ≡ len * (if is_plus then 6 else 0) }
{
    if is_plus {
        Share {
            nodes: len,
            tets: 6 * len as u64,
        }
    } else {
        Share { nodes: 0, tets: 0 }
    }
}

/// What vertices of a row one after another add, and the place after the last of them.
#[derive(Clone, Copy)]
struct Counted {
    share: Share,
    end: u32,
}

/// What the vertex at place `i` of a row and the run after it add.
#[inline(always)]
#[tactic(auto, using(lattice_counts::proofs::Sizes::nx_small))]
fn count_from<S: StateSource>(from: &mut S, dims: Dims, row: Row, i: u32) -> Counted
    requires dims { IsDims dims }
    requires sizes { S.sizes from.old ≡ dims }
    requires row { IsRow dims row }
    requires known { KnowsAround dims (S.knows from.old) row.h }
    requires place { i < row_len dims.nx row.h }
    ensures nodes { result.share.nodes ≡ sum_by (nodes_at_id dims (S.told from.old)) (range_with_len (row.start + i) (result.end - i)) }
    ensures tets { result.share.tets ≡ sum_by (pieces_at_id dims (S.told from.old)) (range_with_len (row.start + i) (result.end - i)) }
    ensures few_nodes { result.share.nodes ≤ 8 * (result.end - i) }
    ensures few_tets { result.share.tets ≤ 18 * (result.end - i) }
    ensures low { i < result.end }
    ensures high { result.end ≤ row_len dims.nx row.h }
    ensures same { S.unchanged from.old from.new }
{
    let one = share_by_signs(from, dims, vertex_in_row(row.h, row.j, i));
    let run = run_after(from, dims, row, i);
    let more = share_of_run(run.is_plus, run.end - (i + 1));
    Counted {
        share: Share {
            nodes: one.nodes + more.nodes,
            tets: one.tets + more.tets,
        },
        end: run.end,
    }
}

/// What row `j` of layer `h` adds.
#[tactic(auto, using(lattice_counts::proofs::Sizes::nx_small, lattice_counts::proofs::Sizes::ny_small))]
fn share_of_row<S: StateSource>(from: &mut S, dims: Dims, h: u32, j: u32) -> Share
    requires dims { IsDims dims }
    requires sizes { S.sizes from.old ≡ dims }
    requires layer { h < layers dims }
    requires row { j < row_len dims.ny h }
    requires known { KnowsAround dims (S.knows from.old) h }
    ensures nodes { result.nodes ≡ sum_by (nodes_at_id dims (S.told from.old)) (row_ids dims h j) }
    ensures tets { result.tets ≡ sum_by (pieces_at_id dims (S.told from.old)) (row_ids dims h j) }
    ensures few_nodes { result.nodes ≤ 8 * row_len dims.nx h }
    ensures few_tets { result.tets ≤ 18 * row_len dims.nx h }
    ensures same { S.unchanged from.old from.new }
{
    let row = row_of(dims, h, j);
    let mut share = Share { nodes: 0, tets: 0 };
    let mut i = 0;
    while i < columns(dims, h) {
        let more = count_from(from, dims, row, i);
        share.nodes += more.share.nodes;
        share.tets += more.share.tets;
        i = more.end;
    }
    share
}

/// The numbers of nodes and tetrahedra of the mesh that belong to layer `h`.
///
/// ```rust
/// let mut source = &states;
/// let count = layer_count(&mut source, states.dims(), h);
/// println!(rt; "layer {h}: {} nodes, {} tetrahedra", count.nodes, count.tets)?;
/// ```
#[tactic(auto, using(lattice_counts::proofs::Sizes::nx_small, lattice_counts::proofs::Sizes::ny_small))]
pub fn layer_count<S: StateSource>(from: &mut S, dims: Dims, h: u32) -> LayerCount
    requires dims { IsDims dims }
    requires sizes { S.sizes from.old ≡ dims }
    requires layer { h < layers dims }
    requires known { KnowsAround dims (S.knows from.old) h }
    ensures h { result.h ≡ h }
    ensures nodes { (ss : List State) → ArePadded dims ss → Agrees dims (S.knows from.old) (S.told from.old) ss
        → result.nodes ≡ length (layer_node_keys dims ss h) }
    ensures tets { (ss : List State) → ArePadded dims ss → Agrees dims (S.knows from.old) (S.told from.old) ss
        → result.tets ≡ length (layer_pieces dims ss h) }
    ensures same { S.unchanged from.old from.new }
{
    let mut count = LayerCount {
        h,
        nodes: 0,
        tets: 0,
    };
    for j in 0..rows(dims, h) {
        let more = share_of_row(from, dims, h, j);
        count.nodes += more.nodes;
        count.tets += more.tets;
    }
    count
}
