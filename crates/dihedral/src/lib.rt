//! The dihedral angles of tetrahedra, exactly: each by the square of its cosine, a fraction of whole numbers with
//! the cosine's sign, and the least and the greatest of many.
//!
//! Places are in units of 1/8192 of a kept voxel step. Where the places of a tetrahedron differ by at most 12,286 on
//! each axis, a normal of a face has coordinates below 2^29, a product of two normals is below 2^58 in size, and its
//! square is below 2^116. A greater signed square is a smaller angle.
//!
//! Of one tetrahedron, `Faces` has the products of the normals of its faces, and each angle before it is brought to
//! lowest terms. Of many, `Remembering` first asks whether one of the same shape was taken; then `Bounded` asks whether
//! bounds in 4096ths decide of all six angles; and where they do not, `Running` compares them with the extremes so far.
//!
//! ```rust
//! let mut angles = Remembering::new();
//! angles.take(places, 0, [0, 1, 2, 7]);
//! let extremes = angles.found();
//! ```
#![tactic(auto)]

mod angles;
mod bounded;
mod bounds;
mod extremes;
mod faces;
mod fractions;
mod pair;
mod remembering;
mod running;
mod shape;
mod star;

pub use angles::edge_cosine;
pub use definitions::{Cosine, Extreme, Extremes, Place};
pub use extremes::{extremes_of, fold};
pub use fractions::compare;
pub use remembering::Remembering;
