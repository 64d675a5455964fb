//! The mesh of a field on one thread: the places of its nodes and its tetrahedra, as plain lists; and its least and
//! greatest angle.
#![tactic(auto)]

mod angles;
mod build;
mod kinds;
mod list;
mod mesh;
mod places;
mod tetrahedra;
mod whole;

pub use angles::extremes;
pub use build::build_mesh;
pub use mesh::Mesh;
pub use places::{edge_cut, place_on_edge, places_of};
pub use tetrahedra::{push_tets_from, tets_of};
pub use whole::{Whole, six_tets, whole_numbers};
