//! The numbers below a bound, drawn by several threads from one shared counter, each once.
//!
//! [`Claims`] is the counter, and a [`ClaimSeat`] is the right to draw from it. Each worker has a seat of its own.
//! Once all seats are joined again and the numbers are drawn to the end, closing the counter gives a [`Drawn`],
//! which stands for the fact that each number was drawn once. Nothing here waits, and no call but `Claims::new`
//! takes memory.
#![tactic(auto)]

mod claims;
mod rule;

pub use claims::{Claim, ClaimSeat, Claims, Drawn};
