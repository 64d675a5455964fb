//! Reads a .mha file from a desk: the head, and the samples behind it.
//!
//! ```rust
//! desk.open_input(b"scan.mha")?;
//! let head = read_head(alloc, &mut desk, false)?;
//! let volume = read_volume(alloc, &mut desk, &head, 1, &Limits::first())?;
//! ```
#![tactic(auto)]

mod axes;
mod counts;
mod decimals;
mod filling;
mod forms;
mod lines;
mod meaning;
mod numbers;
mod pairs;
mod reading;
mod samples;
mod support;
mod volumes;

pub use reading::read_head;
pub use volumes::{VolFault, read_volume};
