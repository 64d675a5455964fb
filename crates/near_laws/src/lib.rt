//! Laws of places: the nodes of a tetrahedron stand near each other.
//!
//! Each law is the contract of a function that does nothing. The definitions are those of the crate `definitions`.
#![tactic(auto)]

ghost use Rattle.near_laws.specs.Near.{NodesAreNear};

/// The nodes of a tetrahedron of the mesh of a field have places, which differ by at most 12,286 on each axis.
pub fn nodes_are_near()
    ensures { NodesAreNear }
{}
