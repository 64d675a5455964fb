//! The whole program as one function, from words and files to a status and files. No desk stands in its contract.
//!
//! ```rust
//! let answer = meshed(&rt, alloc, &words, &files);
//! if answer.status == Status::Done { .. answer.files .. }
//! ```
#![tactic(auto)]

mod answer;
mod call;
mod desk;

pub use answer::{Answer, File};
pub use call::meshed;
