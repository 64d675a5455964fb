ghost use Rattle.definitions.specs.Soundness.{IsPositive, IsSound};
ghost use Rattle.std.specs.Prelude.{◌≡◌, ◌^◌, ◌<◌, ◌≤◌, All, IfOk, length};
ghost use Rattle.definitions.specs.Lattice.{vertices};
ghost use Rattle.definitions.specs.Mesh.{ArePadded, mesh};
ghost use Rattle.definitions.specs.States.{states, states as states_lem, IsShares};
ghost use Rattle.definitions.specs.Values.{IsField};
ghost use Rattle.place_laws.specs.Inside.{StandsInside};

use crate::Mesh;
use crate::places::places_of;
use crate::tetrahedra::tets_of;
use bcc_lattice::{first_vertex, vertex_count};
use samples::Field;
use snap_rule::{Shares, States, all_states};
use st_base::{NoMemory, Tally};
use std::alloc::Global;
use vertex_numbers::{Numbered, Starts};

/// A mesh has about so many tetrahedra for each node.
const TETS_A_NODE: usize = 6;

/// The states of all vertices, none of them Plus in the padding.
fn states_of(alloc: Global, field: &Field, shares: Shares) -> Result<States, NoMemory>
    ensures dims { IfOk result (λ s. s.dims ≡ field.now.dims) }
    ensures states { IfOk result (λ s. s.states ≡ states field.now shares) }
    ensures padded { IfOk result (λ s. ArePadded s.dims s.states) }
    ensures few { length (vertices field.now.dims) ≤ 2 ^ 27 }
    ensures field { IsField field.now }
    ensures limits { IsShares shares }
{
    // There are so few vertices that the ledger has room for them.
    let _ = vertex_count(field.dims());
    all_states(alloc, field, shares, &mut Tally::new())
}

/// The mesh of a field, by the states of its vertices.
fn mesh_of(alloc: Global, field: &Field, shares: Shares, states: &States) -> Result<Mesh, NoMemory>
    requires sizes { states.now.dims ≡ field.now.dims }
    requires states { states.now.states ≡ states_lem field.now shares }
    requires padded { ArePadded states.now.dims states.now.states }
    requires field { IsField field.now }
    requires limits { IsShares shares }
    ensures { IfOk result (λ m. m ≡ mesh field.now shares) }
{
    let Numbered { starts, count } = Starts::of_all(alloc, states)?;
    let end = vertex_count(states.dims());
    let places = places_of(
        alloc,
        count,
        field,
        states,
        &starts,
        first_vertex(0),
        0,
        end,
    )?;
    let tets = tets_of(alloc, states, &starts, TETS_A_NODE * count as usize)?;
    Ok(Mesh::new(places, tets))
}

/// The mesh of a field, on one thread, as plain lists.
///
/// ```rust
/// let mesh = build_mesh(rt.alloc(), &field, shares)?;
/// println!(rt; "{} nodes, {} tetrahedra", mesh.places().len(), mesh.tets().len())?;
/// let angles = extremes(&mesh);
/// ```
pub fn build_mesh(alloc: Global, field: &Field, shares: Shares) -> Result<Mesh, NoMemory>
    ensures mesh { IfOk result (λ m. m ≡ mesh field.now shares) }
    ensures inside { IfOk result (λ m. All (StandsInside field.now.dims) m.places) }
    ensures sound { IsSound field.now shares }
    ensures positive { IfOk result (λ m. All (IsPositive m.places) m.tets) }
    ensures few { IfOk result (λ m. length m.places < 2 ^ 31) }
    ensures few_tets { IfOk result (λ m. length m.tets < 2 ^ 32) }
{
    let states = states_of(alloc, field, shares)?;
    mesh_of(alloc, field, shares, &states)
}
