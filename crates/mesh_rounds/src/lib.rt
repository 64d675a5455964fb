//! The files of a mesh to a port round by round, and the extremes of its angles without its files: some slabs are made
//! by workers, written and given up, and then the next.
//!
//! ```rust
//! put_nodes(rt, alloc, &mut desk, Port::Node, &source, frame, 0, workers, &OpenGate)?;
//! let extremes = put_tets(rt, alloc, &mut desk, Port::Ele, &source, 0, workers, &OpenGate)?;
//! ```
#![tactic(auto)]

mod files;
mod folding;
mod lines;
mod rounds;

pub use files::{put_first_line, put_nodes, put_tets};
pub use lines::put_parts;
pub use rounds::{Reached, extremes, next_round};
