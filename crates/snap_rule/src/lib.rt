//! Snapping: which vertices of the lattice are moved onto a cut near them, and the states of all
//! vertices after it.
#![tactic(auto)]

mod columns;
mod layers;
mod near;
mod shares;
mod state;
mod states;
mod values_around;
mod vertex;

pub use layers::{layer_states, row_states};
pub use shares::Shares;
pub use states::{States, all_states};
pub use vertex::vertex_state;
