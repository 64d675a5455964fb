//! Which nodes occur in the mesh, their numbers, and how many nodes and tetrahedra each layer has.
#![tactic(auto)]

mod alike;
mod around;
mod counts;
mod later;
mod nodes;
mod offsets;
mod pieces;
mod runs;
mod source;
mod starts;
mod steps;
mod vertex_nodes;
mod walk;

pub use around::signs_around;
pub use counts::{LayerCount, layer_count};
pub use later::{Later, have_sign, later_ids};
pub use nodes::{nodes_at, used};
pub use offsets::Offsets;
pub use pieces::pieces_up;
pub use source::StateSource;
pub use starts::{Numbered, Starts};
pub use vertex_nodes::VertexNodes;
pub use walk::Walk;
