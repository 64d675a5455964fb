//! The workers of a survey: they are hired, one for each ledger, run until all slabs are drawn, each in a thread of its
//! own where one can be made, and what they leave is gathered.
//!
//! ```rust
//! let workers = run_to_end(rt, &field, shares, &layout, &claims, &cells, gate, workers);
//! let all = gather(&claims, &cells, &layout, workers, last, table, &mut ledgers);
//! let finished = finish(claims, cells, &layout, all);
//! ```
#![tactic(auto)]

mod drive;
mod gathering;
mod hiring;

pub use drive::run_to_end;
pub use gathering::{Finished, Gathered, finish, gather};
pub use hiring::hire;
