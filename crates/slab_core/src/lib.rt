//! The concurrent core as a machine over events: workers that claim slabs of layers, make layers of
//! words and publish them to one another.
//!
//! There is no thread here. [`Core::run`] takes a list of events in any order of the workers, and what
//! holds after it holds for every such list. Each event is one step of one worker on one word that the
//! workers share, or on its own record.
#![tactic(auto)]

mod event;
mod lists;
mod machine;
mod state;
mod worker;

pub use event::Event;
pub use machine::Core;
