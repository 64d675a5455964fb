//! Tests of the lattice, of cuts, of the values and signs at the vertices of small images, of their states, and of the
//! numbers of nodes and tetrahedra that follow.
#![tactic(auto)]

#[cfg(test)]
mod cuts;
#[cfg(test)]
mod fields;
#[cfg(test)]
mod lattice;
#[cfg(test)]
mod numbers;
#[cfg(test)]
mod rows;
#[cfg(test)]
mod states;
#[cfg(test)]
mod values;
