//! Tests of the lines of meshes: some alone, those of one sample round by round, and the same bytes whatever the workers
//! and slabs.
#![tactic(auto)]

#[cfg(test)]
mod lines;
#[cfg(test)]
mod rounds;
