//! Laws of the mesh of a field: where its tetrahedra come from, and where its nodes stand.
//!
//! Each law is the contract of a function that does nothing. The definitions are those of the crate `definitions`.
#![tactic(auto)]

ghost use Rattle.parent_laws.specs.Laws.{DisplacementsAreLimited, NodesStandOnEdges, TetsArePieces, TetsHaveParents};

/// The tetrahedra of the mesh are, in order, the pieces of the lattice tetrahedra.
pub fn tets_are_pieces()
    ensures { TetsArePieces }
{}

/// Each tetrahedron of the mesh is a piece of a lattice tetrahedron of one of six kinds.
pub fn tets_have_parents()
    ensures { TetsHaveParents }
{}

/// A node of a piece stands on its moved vertex, or on the cut of its edge.
pub fn nodes_stand_on_edges()
    ensures { NodesStandOnEdges }
{}

/// Vertices are displaced within the limits of their directions, by at most 2047 parts on each axis.
pub fn displacements_are_limited()
    ensures { DisplacementsAreLimited }
{}
