//! The lines of a mesh, or its whole files, to a port by a writer beside the workers: one round of slabs is written
//! while the workers make the next.
//!
//! ```rust
//! let (survey, _) = survey(rt, alloc, &field, shares, plan, &OpenGate, ledgers)?;
//! let source = source_of(&survey);
//! stream_nodes(rt, alloc, &mut desk, Port::Node, &source, frame, 0, plan.workers, &OpenGate)?;
//! let found = stream_tets(rt, alloc, &mut desk, Port::Ele, &source, 0, plan.workers, &OpenGate)?;
//! ```
#![tactic(auto)]

mod beside;
mod files;
mod lines;
mod stream;

pub use files::{stream_nodes, stream_tets};
pub use stream::stream_slabs;
