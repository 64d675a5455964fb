//! The lines of a mesh slab by slab, made by several workers: a round of slabs at a time.
#![tactic(auto)]

mod crew;
mod lines;
mod part;
mod round;
mod source;
mod worker;

pub use crew::Crew;
pub use lines::Lines;
pub use part::{Part, part_of};
pub use round::emit;
pub use source::Source;
