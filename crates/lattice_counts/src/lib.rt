//! Closed formulas for the numbers of vertices of the lattice and for their ids.
//!
//! Each law is the contract of a function that does nothing. The definitions are those of the crate `definitions`.
#![tactic(auto)]

ghost use Rattle.lattice_counts.specs.Counts.{LayersCountVertices};

/// Layers, the vertices below them and ids have closed formulas.
pub fn layers_count_vertices()
    ensures { LayersCountVertices }
{}
