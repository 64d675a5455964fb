//! The desk over files and the standard streams.
#![tactic(auto)]

mod calls;
mod desk;
mod ends;
mod system;

pub use desk::StdDesk;
pub use system::{FileSystem, System};
