//! Tests of the stencil table, of how solids are cut, and of the pieces of a lattice tetrahedron.
#![tactic(auto)]

#[cfg(test)]
mod lines;
#[cfg(test)]
mod pieces;
#[cfg(test)]
mod rows;
#[cfg(test)]
mod splits;
