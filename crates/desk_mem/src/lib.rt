//! Desks in memory: [`MemDesk`] tells all and fails where it was asked to, and [`SteadyDesk`] never
//! fails and keeps no text.
#![tactic(auto)]

mod held;
mod input;
mod mem;
mod port;
mod steady;

pub use mem::MemDesk;
pub use steady::SteadyDesk;
