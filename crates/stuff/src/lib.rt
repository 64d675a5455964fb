//! The top call: carries out a command line over a desk.
//!
//! ```rust
//! let outcome = stuff(&rt, alloc, &words, &mut desk, &OpenGate);
//! let code = outcome.status.code();
//! ```
#![tactic(auto)]

mod audit;
mod demo;
mod faces;
mod files;
mod finished;
mod input;
mod lines;
mod mesh;
mod outcome;
mod outputs;
mod probe;
mod run;
mod signs;
mod surveyed;
mod top;
mod trouble;

pub use files::write_report;
pub use input::{Scan, read_field, read_input};
pub use outcome::Outcome;
pub use signs::sign_text;
pub use top::stuff;
pub use trouble::tell;
