//! A survey of a field: the states of all vertices, and how many nodes and tetrahedra each layer has.
//!
//! The layers are surveyed in slabs by workers, each in a thread of its own where one can be made. A worker draws a
//! slab, makes the layers of its reach that nobody has published yet, and counts what the slab's own layers have. All
//! memory that the workers need is taken before they begin.
//!
//! ```rust
//! let (survey, ledgers) = survey(rt, alloc, &field, shares, plan, &OpenGate, ledgers)?;
//! let made = survey.made();
//! ```
#![tactic(auto)]

mod run;
mod whole;

pub use run::survey;
pub use whole::{Survey, Trace};
