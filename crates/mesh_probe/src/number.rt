ghost use Rattle.std.specs.Prelude.{◌≡◌, ◌*◌, ◌^◌, ◌<◌, ◌≤◌, length};
ghost use Rattle.definitions.specs.declared.Place.{Place};
ghost use Rattle.definitions.specs.Lattice.{InDomain, vertex_at, vertices};
ghost use Rattle.definitions.specs.States.{states as states_of};
ghost use Rattle.vertex_numbers.specs.Counts.{layer_counts};
ghost use Rattle.mesh_probe.specs.Answers.{IsHold, number_of_hold};
ghost use Rattle.mesh_probe.specs.Holding.{IsFirst, pieces_before, pieces_from};

use crate::Hold;
use bcc_lattice::{id, vertex_of};
use samples::Field;
use snap_rule::{Shares, States};
use st_base::Vertex;
use vertex_numbers::{Offsets, pieces_up, signs_around};

/// How many pieces the lattice tetrahedra have whose lowest vertex is `v`.
fn count_from(states: &States, v: Vertex) -> u8
    requires domain { InDomain states.now.dims v }
    ensures count { result ≡ length (pieces_from states.now.dims states.now.states v) }
    ensures few { result ≤ 18 }
{
    let mut from = states;
    pieces_up(&signs_around(&mut from, states.dims(), v))
}

/// The same for the vertex of an id.
fn count_of_id(states: &States, id: u32) -> u8
    requires { id < length (vertices states.now.dims) }
    ensures count { result ≡ length (pieces_from states.now.dims states.now.states (vertex_at states.now.dims id)) }
    ensures few { result ≤ 18 }
{
    let Some(v) = vertex_of(states.dims(), id) else {
        unreachable!()
    };
    count_from(states, v)
}

/// How many pieces stand before those of the lattice tetrahedra whose lowest vertex is `v`.
fn count_before(states: &States, offsets: &Offsets, v: Vertex) -> u64
    requires domain { InDomain states.now.dims v }
    requires offsets { offsets.now ≡ layer_counts states.now.dims states.now.states }
    ensures count { result ≡ pieces_before states.now.dims states.now.states v }
    ensures few { result ≤ 18 * 2 ^ 27 }
{
    let dims = states.dims();
    let corner = Vertex {
        h: v.h,
        y: v.h % 2,
        x: v.h % 2,
    };
    let mut count = offsets.tet_start(v.h);
    for n in id(dims, corner)..id(dims, v) {
        count += u64::from(count_of_id(states, n));
    }
    count
}

/// The number in the mesh of a tetrahedron that holds a point.
pub fn hold_number(
    field: &Field,
    shares: Shares,
    states: &States,
    offsets: &Offsets,
    hold: &Hold,
) -> u64
    requires sizes { states.now.dims ≡ field.now.dims }
    requires states { states.now.states ≡ states_of field.now shares }
    requires offsets { offsets.now ≡ layer_counts field.now.dims (states_of field.now shares) }
    requires domain { InDomain field.now.dims hold.now.lowest }
    requires ranked { hold.now.rank < length (pieces_from field.now.dims (states_of field.now shares) hold.now.lowest) }
    ensures number { result ≡ number_of_hold field.now shares hold.now }
    ensures first { (p : Place) → IsHold field.now shares p hold.now → IsFirst field.now shares p result }
{
    count_before(states, offsets, hold.lowest) + u64::from(hold.rank)
}
