//! Vectors between places, determinants of tetrahedra, and matrices in whose rows the diagonal is above the sum of the
//! sizes of the rest.
//!
//! Of places that differ by at most 12,286 on each axis, a vector between two has coordinates of at most 12,286, and a
//! cross product of two such vectors of at most 301,891,592, which is two squares of 12,286. So a dot product of two of
//! these is below 2^58 in size.
//!
//! ```rust
//! let volume = det([a, b, c, d]);
//! let normal = cross(minus(c, a), minus(d, a));
//! let same = dot(minus(b, a), normal) == volume;
//! ```
#![tactic(auto)]

mod determinants;
mod dominance;
mod vectors;

pub use definitions::Place;
pub use determinants::det;
pub use dominance::dominant;
pub use vectors::{cross, dot, minus};
