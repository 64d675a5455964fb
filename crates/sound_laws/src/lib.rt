//! The mesh of every field is sound.
//!
//! Each law is the contract of a function that does nothing. The definitions are those of the crate `definitions`.
#![tactic(auto)]

ghost use Rattle.sound_laws.specs.Laws.{BoundaryIsClosed, MeshIsSound, TetsArePositive, TetsDiffer, TetsMeet};

/// Each tetrahedron of the mesh has a volume above zero.
pub fn tets_are_positive()
    ensures { TetsArePositive }
{}

/// Any two tetrahedra of the mesh share just the hull of their common nodes.
pub fn tets_meet()
    ensures { TetsMeet }
{}

/// No two tetrahedra of the mesh have the same nodes.
pub fn tets_differ()
    ensures { TetsDiffer }
{}

/// The boundary of the mesh closes up, its nodes are level, and no triangle is in more than two tetrahedra.
pub fn boundary_is_closed()
    ensures { BoundaryIsClosed }
{}

/// The mesh of every field is sound, whatever the shares within their limits.
pub fn mesh_is_sound()
    ensures { MeshIsSound }
{}
