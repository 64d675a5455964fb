//! The boundary triangles of a list of tetrahedra, the neighbours of each, and the lines of both.
#![tactic(auto)]

mod across;
mod boundary;
mod gather;
mod mutual;
mod pairs;
mod side;
mod sides;
mod texts;

pub use across::neighbours;
pub use boundary::{faces, faces_by_neighbours};
pub use mutual::{neighbours_are_mutual, neighbours_end_at_boundary};
pub use texts::{face_line, fill_face_line, fill_neigh_line, neigh_line};
