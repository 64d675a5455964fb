//! Lattice tetrahedra whose vertices are snapped within the limits: 1023 parts of a long edge, 2047 of a short one.
//!
//! ```rust
//! let matrix = moved_matrix(&tet, states);
//! assert!(rt; dominant(matrix));
//! ```
#![tactic(auto)]

ghost use Rattle.std.specs.Prelude.{◌≡◌, ◌*◌, ◌<◌, ◌≤◌, ℕ};
ghost use Rattle.lattice_laws.specs.NumberedTetrahedra.{IsNumberedTet};
ghost use Rattle.lattice_laws.specs.Vectors.{norm};
ghost use Rattle.moved_lattice.specs.WeightedSums.{sum4, combination};
ghost use Rattle.moved_matrix.specs.Moved.{displacement_at, by_slot, changes, is_near_at, place_at_slot};

mod forms;
mod matrix;

pub use bcc_lattice::Tet;
pub use definitions::State;
pub use matrix::moved_matrix;

/// A step of the contraction: of two points of a lattice tetrahedron, given by weights with equal sums, the displacements
/// differ by at most 4094 of 4096 parts of how far the points are apart.
pub fn contract_step(tet: &Tet, states: [State; 4], from: [i64; 4], to: [i64; 4])
    requires tet { IsNumberedTet tet.now.at tet.now.ids }
    requires near { (s : ℕ) → s < 4 → is_near_at states s }
    requires sums { sum4 (by_slot from) ≡ sum4 (by_slot to) }
    ensures { 4096 * norm (combination (changes from to) (displacement_at tet.now.at states)) ≤ 4094 * norm (combination (changes from to) (place_at_slot tet.now.at)) }
{}
