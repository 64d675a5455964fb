ghost use Rattle.std.specs.Prelude.{◌≡◌, ◌+◌, ◌-◌, ◌<◌, ◌≤◌, ℕ, length, slice_index};
ghost use Rattle.definitions.specs.Lattice.{IsDims, vertex_at, vertices};

use crate::Starts;
use bcc_lattice::vertex_of;
use st_base::{Dims, Vertex};

/// A vertex and its id, in a walk over the vertices that have nodes. At the end of the walk the vertex is any.
#[derive(Clone, Copy)]
pub struct Walk {
    pub v: Vertex,
    pub id: u32,
}

impl Walk {
    /// The first vertex from the one with an id on, and before `end`, that is a node or has a cut on one of its edges
    /// upwards; `v` is the one with the id. If there is none the walk is at `end`.
    #[inline(always)]
    pub fn from(starts: &Starts, dims: Dims, v: Vertex, id: u32, end: u32) -> Walk
        requires sizes { IsDims dims }
        requires low { starts.now.first ≤ id }
        requires some { id ≤ end }
        requires high { end ≤ starts.now.first + starts.now.len }
        requires within { end ≤ length (vertices dims) }
        requires at { id < length (vertices dims) → v ≡ vertex_at dims id }
        ensures at { result.id < length (vertices dims) → result.v ≡ vertex_at dims result.id }
        ensures none { (n : ℕ) → id ≤ n → n < result.id → slice_index starts.now.nodes (n - starts.now.first) ≡ 0 }
        ensures low { id ≤ result.id }
        ensures high { result.id ≤ end }
    {
        let next = starts.next_used(id, end);
        if next == id {
            return Walk { v, id };
        }
        match vertex_of(dims, next) {
            Some(w) => Walk { v: w, id: next },
            None => Walk { v, id: next },
        }
    }
}
