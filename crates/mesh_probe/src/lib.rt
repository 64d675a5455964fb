//! Which tetrahedron of the mesh holds a point.
//!
//! The weight of a node at a point is the determinant of its tetrahedron with that node's place replaced by the point. A
//! tetrahedron holds the point if none of its four weights is below 0. The answer is the first one of the mesh that does, and
//! its weights; it is found from the samples near the point alone.
//!
//! ```rust
//! let mut states = Tally::new();
//! if let Some(hold) = probe(&field, shares, point, &mut states) {
//!     let number = hold_number(&field, shares, survey.states(), survey.offsets(), &hold);
//! }
//! let line = probe_line(alloc, &field, shares, survey.states(), survey.offsets(), point)?;
//! ```
#![tactic(auto)]

ghost use Rattle.mesh_probe.specs.Laws.{HeldPointsAreNear, InnerPointsAreHeldOnce};

mod hold;
mod near;
mod nodes;
mod number;
mod pieces;
mod point;
mod search;
mod text;
mod weights;

pub use hold::Hold;
pub use number::hold_number;
pub use point::probe;
pub use text::probe_line;

/// A point that a tetrahedron of the mesh holds is near the lowest vertex of its lattice tetrahedron.
pub fn held_points_are_near()
    ensures { HeldPointsAreNear }
{}

/// Where all four weights of a point in a tetrahedron of the mesh are above 0, no other one holds the point.
pub fn inner_points_are_held_once()
    ensures { InnerPointsAreHeldOnce }
{}
