ghost use Rattle.std.specs.Prelude.{◌≡◌, ◌<◌, ◌%◌, ◌/◌, ℕ, List, map, slice_index, slice_index_or};
ghost use Rattle.definitions.specs.declared.State.{State};
ghost use Rattle.definitions.specs.declared.State.TheVariants as state;
ghost use Rattle.definitions.specs.Lattice.{InDomain, id};
ghost use Rattle.definitions.specs.Mesh.{node_place, state_at};
ghost use Rattle.definitions.specs.States.{IsState};
ghost use Rattle.definitions.specs.Tetrahedra.{IsLatticeTet};
ghost use Rattle.lattice_laws.specs.Ascending.{Has};
ghost use Rattle.mesh_probe.specs.Found.{AreStatesAt};

use bcc_lattice::{Dir, Tet, cut_place, place};
use definitions::State;
use mesh_lists::edge_cut;
use samples::Field;
use st_base::{Place, Vertex};

/// The place of the node of a vertex in a direction, in direction 0 of the vertex itself, in its state.
fn place_towards(field: &Field, v: Vertex, state: State, dir: u8) -> Place
    requires domain { InDomain field.now.dims v }
    requires state { IsState state }
    requires dir { dir < 8 }
    ensures { (ss : List State) → state_at ss (id field.now.dims v) ≡ state → (key : ℕ) → key / 8 ≡ id field.now.dims v → key % 8 ≡ dir
        → result ≡ node_place field.now ss key }
{
    match Dir::new(dir) {
        Some(dir) => cut_place(v, dir, edge_cut(field, v, dir)),
        None => place(v, state),
    }
}

/// Which of the vertices of a lattice tetrahedron has this id.
fn slot_of(ids: [u32; 4], id: u32) -> usize
    requires { Has id ids }
    ensures slot { result < 4 }
    ensures id { slice_index ids result ≡ id }
{
    let [a, b, c, _] = ids;
    if id == a {
        0
    } else if id == b {
        1
    } else if id == c {
        2
    } else {
        3
    }
}

/// The place of a node of a lattice tetrahedron, whose vertices are in these states.
fn place_of(field: &Field, tet: &Tet, states: [State; 4], key: u32) -> Place
    requires lattice { IsLatticeTet field.now.dims tet.now.at }
    requires ids { tet.now.ids ≡ map (id field.now.dims) tet.now.at }
    requires states { (j : ℕ) → j < 4 → IsState (slice_index_or states j state.Minus) }
    requires vertex { Has (key / 8) tet.now.ids }
    ensures { (ss : List State) → AreStatesAt ss tet.now.ids states → result ≡ node_place field.now ss key }
{
    let slot = slot_of(tet.ids, key / 8);
    place_towards(field, tet.at[slot], states[slot], (key % 8) as u8)
}

/// The places of the nodes of a piece.
pub fn places_of(field: &Field, tet: &Tet, states: [State; 4], keys: [u32; 4]) -> [Place; 4]
    requires lattice { IsLatticeTet field.now.dims tet.now.at }
    requires ids { tet.now.ids ≡ map (id field.now.dims) tet.now.at }
    requires states { (j : ℕ) → j < 4 → IsState (slice_index_or states j state.Minus) }
    requires vertices { (k : ℕ) → Has k keys → Has (k / 8) tet.now.ids }
    ensures { (ss : List State) → AreStatesAt ss tet.now.ids states → result ≡ map (node_place field.now ss) keys }
{
    let [a, b, c, d] = keys;
    [
        place_of(field, tet, states, a),
        place_of(field, tet, states, b),
        place_of(field, tet, states, c),
        place_of(field, tet, states, d),
    ]
}
