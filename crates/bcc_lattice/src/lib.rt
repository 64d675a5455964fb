//! The body-centred cubic lattice over an image of samples: its vertices and their ids, its seven
//! directions, its tetrahedra, the states of its vertices and the places of its nodes, and its layers
//! in slabs.
//!
//! Vertices are numbered in half units from the padding corner (-1, -1, -1). Each call that takes sizes
//! has the condition that each size is at least 1 and that `(nx + 2) * (ny + 2) * (nz + 2)` is at most
//! 67,108,864.
#![tactic(auto)]

mod direction;
mod laws;
mod layout;
mod places;
mod state;
mod tetrahedra;
mod vertices;
mod walk;

pub use definitions::State;
pub use direction::Dir;
pub use laws::{codes_tell_states, found_tets_are_listed};
pub use layout::Layout;
pub use places::{cut_place, place};
pub use state::{code, sign_of, state_of};
pub use tetrahedra::{Tet, TetsAt, tets_at};
pub use vertices::{id, ids_below, in_domain, neighbour, vertex_count, vertex_of};
pub use walk::{columns, first_vertex, layer_len, layers, next_vertex, rows, vertex_in_row};
