//! What a user of workers calls: a plan says how many workers there are and how many double layers a slab has; a
//! survey finds the states of all vertices; then the lines of the mesh are made round by round, some slabs at a time.
//!
//! ```rust
//! let (survey, ledgers) = survey(rt, alloc, &field, shares, plan, &OpenGate, ledgers)?;
//! for part in emit_nodes(rt, alloc, &survey, frame, 0, plan, &OpenGate, 0)?.iter() { .. }
//! ```
#![tactic(auto)]

mod emission;
mod laws;
mod list;
mod source;

pub use command_line::Plan;
pub use emission::{emit_nodes, emit_tets, rounds};
pub use laws::tets_are_few;
pub use list::list_tets;
pub use mesh_lists::{Mesh, build_mesh, extremes};
pub use slab_emit::{Part, Source};
pub use slab_survey::{Worker, survey_slab};
pub use source::source_of;
pub use survey::{Survey, Trace, survey};
