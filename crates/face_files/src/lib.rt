//! The files of boundary triangles and of neighbours, written to a port in pieces.
//!
//! ```rust
//! let across = neighbours(alloc, &tets)?;
//! put_faces(alloc, &mut desk, Port::Face, &tets, &across, 0)?;
//! put_neighbours(alloc, &mut desk, Port::Neigh, &across, 0)?;
//! ```
#![tactic(auto)]

mod faces;
mod held;
mod neighbours;
mod triangles;

pub use faces::put_faces;
pub use neighbours::put_neighbours;
