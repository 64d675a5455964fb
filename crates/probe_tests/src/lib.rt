//! Tests of which tetrahedron of a mesh holds a point: rows of one sample, and all points of a grid in a mesh of noise.
#![tactic(auto)]

#[cfg(test)]
mod fields;
#[cfg(test)]
mod noise;
#[cfg(test)]
mod rows;
