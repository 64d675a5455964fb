//! Reads finished .node and .ele files from a desk, without any knowledge of how they were made.
//!
//! [`read_nodes`] gives the places of the nodes, and [`read_tets`] the tetrahedra as ranks of nodes;
//! each says which line has the first fault. A text is read whole, 1,073,741,824 bytes at most.
#![tactic(auto)]

mod bytes;
mod contents;
mod decimals;
mod fields;
mod files;
mod forms;
mod lines;
mod numbers;
mod reading;
mod texts;
mod values;

pub use reading::{read_nodes, read_tets};
pub use values::{Nodes, Tets};
