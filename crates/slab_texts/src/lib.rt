//! The lines of the nodes and of the tetrahedra of some layers, from the states of all vertices: those
//! that the layers have in the files of the whole mesh, and the extremes of the tetrahedra's angles.
#![tactic(auto)]

mod laws;
mod lines;
mod node_lines;
mod nodes;
mod tetrahedra;
mod text;
mod tools;

pub use laws::{angles_are_fractions, slabs_join, spans_are_all, spans_join};
pub use lines::TetLines;
pub use nodes::Nodes;
pub use text::{TetText, node_text, tet_extremes, tet_text};
pub use tools::Tools;
