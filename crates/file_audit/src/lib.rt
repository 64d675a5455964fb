//! Judges the finished files of a mesh over a desk: NAME.node and NAME.ele are opened, read and
//! judged, without any knowledge of how they were made.
#![tactic(auto)]

mod auditing;
mod laws;
mod names;
mod opening;
mod text;

pub use auditing::audit_files;
pub use laws::meshes_are_done;
pub use text::sound_text;
