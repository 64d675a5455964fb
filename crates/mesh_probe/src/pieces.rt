ghost use Rattle.std.specs.Prelude.{◌≡◌, ◌+◌, ◌*◌, ◌^◌, ◌<◌, ◌≤◌, ℕ, All, MatchOption, length, map, slice_index_or};
ghost use Rattle.definitions.specs.declared.State.TheVariants as state;
ghost use Rattle.definitions.specs.Lattice.{InDomain, id};
ghost use Rattle.definitions.specs.Mesh.{tet_pieces};
ghost use Rattle.definitions.specs.States.{IsShares, IsState, sign_of_state, state_of, states};
ghost use Rattle.definitions.specs.Tetrahedra.{IsLatticeTet};
ghost use Rattle.mesh_probe.specs.Found.{IsFirstOf, NoneHolds};
ghost use Rattle.mesh_probe.specs.Holding.{pieces_from};

use crate::nodes::places_of;
use crate::weights::weights_of;
use bcc_lattice::{Tet, sign_of, tets_at};
use definitions::State;
use samples::Field;
use snap_rule::{Shares, vertex_state};
use st_base::{Ledger, Place, Sign, Vertex};
use stencils::pieces;

/// A piece that holds a point, by its rank among some pieces: the keys of its nodes, and their weights.
#[derive(Clone, Copy)]
pub struct Found {
    pub rank: u8,
    pub nodes: [u32; 4],
    pub weights: [u64; 4],
}

/// How many pieces a lattice tetrahedron has, and the first of them that holds a point.
#[derive(Clone, Copy)]
pub struct InTet {
    pub len: u8,
    pub found: Option<Found>,
}

/// The signs of these states.
fn signs_of(states: [State; 4]) -> [Sign; 4]
    ensures { result ≡ map sign_of_state states }
{
    let [a, b, c, d] = states;
    [sign_of(a), sign_of(b), sign_of(c), sign_of(d)]
}

/// The states of the vertices of a lattice tetrahedron, which the ledger counts.
fn states_of<L: Ledger>(field: &Field, shares: Shares, tet: &Tet, ledger: &mut L) -> [State; 4]
    requires lattice { IsLatticeTet field.now.dims tet.now.at }
    requires room { L.count ledger.old + 4 < 2 ^ 64 }
    ensures states { result ≡ map (state_of field.now shares) tet.now.at }
    ensures are_states { (j : ℕ) → j < 4 → IsState (slice_index_or result j state.Minus) }
    ensures count { L.count ledger.new ≡ L.count ledger.old + 4 }
{
    let [a, b, c, d] = tet.at;
    let first = vertex_state(field, shares, a, ledger);
    let second = vertex_state(field, shares, b, ledger);
    let third = vertex_state(field, shares, c, ledger);
    let fourth = vertex_state(field, shares, d, ledger);
    [first, second, third, fourth]
}

/// The pieces of a lattice tetrahedron, and which of them is the first that holds a point.
fn in_tet<L: Ledger>(
    field: &Field,
    shares: Shares,
    point: Place,
    tet: &Tet,
    ledger: &mut L,
) -> InTet
    requires lattice { IsLatticeTet field.now.dims tet.now.at }
    requires ids { tet.now.ids ≡ map (id field.now.dims) tet.now.at }
    requires fit { All (λ id. 8 * id + 7 < 2 ^ 32) tet.now.ids }
    requires limits { IsShares shares }
    requires room { L.count ledger.old + 4 < 2 ^ 64 }
    ensures len { result.len ≡ length (tet_pieces field.now.dims (states field.now shares) tet.now.at) }
    ensures few { result.len ≤ 3 }
    ensures found { MatchOption result.found (NoneHolds field.now shares point (tet_pieces field.now.dims (states field.now shares) tet.now.at))
        (λ q. IsFirstOf field.now shares point (tet_pieces field.now.dims (states field.now shares) tet.now.at) q.rank q.nodes q.weights) }
    ensures count { L.count ledger.new ≡ L.count ledger.old + 4 }
{
    let states = states_of(field, shares, tet, ledger);
    let pieces = pieces(tet, signs_of(states));
    for n in 0..pieces.len {
        let nodes = pieces.of[n as usize];
        let places = places_of(field, tet, states, nodes);
        if let Some(weights) = weights_of(places, point) {
            let found = Found {
                rank: n,
                nodes,
                weights,
            };
            return InTet {
                len: pieces.len,
                found: Some(found),
            };
        }
    }
    InTet {
        len: pieces.len,
        found: None,
    }
}

/// The first piece that holds a point, of the lattice tetrahedra whose lowest vertex is `v`.
pub fn found_from<L: Ledger>(
    field: &Field,
    shares: Shares,
    point: Place,
    v: Vertex,
    ledger: &mut L,
) -> Option<Found>
    requires domain { InDomain field.now.dims v }
    requires limits { IsShares shares }
    requires room { L.count ledger.old + 24 < 2 ^ 64 }
    ensures found { MatchOption result (NoneHolds field.now shares point (pieces_from field.now.dims (states field.now shares) v))
        (λ q. IsFirstOf field.now shares point (pieces_from field.now.dims (states field.now shares) v) q.rank q.nodes q.weights) }
    ensures more { L.count ledger.old ≤ L.count ledger.new }
    ensures few { L.count ledger.new ≤ L.count ledger.old + 24 }
{
    let tets = tets_at(field.dims(), v);
    let mut before = 0u8;
    for n in 0..tets.len {
        let within = in_tet(field, shares, point, &tets.of[n as usize], ledger);
        if let Some(found) = within.found {
            let nodes = found.nodes;
            let weights = found.weights;
            return Some(Found {
                rank: before + found.rank,
                nodes,
                weights,
            });
        }
        before += within.len;
    }
    None
}
