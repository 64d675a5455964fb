//! Judges finished mesh files without any knowledge of how they were made.
//!
//! [`read_nodes`] and [`read_tets`] read a .node and an .ele file from a desk, and [`audit`] says
//! whether their tetrahedra have volumes above zero and fit together.
#![tactic(auto)]

mod judging;
mod runs;
mod triangles;
mod volumes;

pub use judging::audit;
pub use mesh_read::{Nodes, Tets, read_nodes, read_tets};
