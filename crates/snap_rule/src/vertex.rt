ghost use Rattle.std.specs.Prelude.{◌≡◌, ◌+◌, ◌^◌, ◌<◌};
ghost use Rattle.definitions.specs.Lattice.{InDomain};
ghost use Rattle.definitions.specs.States.{state_of, IsState};

use crate::Shares;
use crate::state::state_of_values;
use crate::values_around::values_at;
use definitions::State;
use samples::Field;
use st_base::{Ledger, Vertex};

/// The state of a vertex.
#[tactic(auto, using(snap_laws::proofs::ByValues::states_by_values))]
pub fn state_at(field: &Field, shares: Shares, v: Vertex) -> State
    requires { InDomain field.now.dims v }
    ensures state { result ≡ state_of field.now shares v }
    ensures is_state { IsState result }
{
    let (own, around) = values_at(field, v);
    state_of_values(shares, own, &around)
}

/// The state of a vertex, which the ledger counts.
pub fn vertex_state<L: Ledger>(field: &Field, shares: Shares, v: Vertex, ledger: &mut L) -> State
    requires domain { InDomain field.now.dims v }
    requires room { L.count ledger.old + 1 < 2 ^ 64 }
    ensures state { result ≡ state_of field.now shares v }
    ensures is_state { IsState result }
    ensures count { L.count ledger.new ≡ L.count ledger.old + 1 }
{
    ledger.add(1);
    state_at(field, shares, v)
}
