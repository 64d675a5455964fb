//! A worker that surveys slabs.
//!
//! A slab is surveyed layer by layer. The worker looks at each layer that a slab reaches, makes and publishes those
//! that nobody has published yet, and then counts the nodes and tetrahedra of the slab's own layers. Nothing here
//! waits, and a survey of a slab takes no memory.
#![tactic(auto)]

mod layer;
mod pass;
mod source;
mod worker;

pub use layer::make_layer;
pub use source::KnownLayers;
pub use worker::{Parts, Worker, survey_slab};
