//! Laws of the triangles of any list of tetrahedra: where all are positive and two of them meet in their common nodes alone.
//!
//! They speak of places and node numbers, and of no lattice.
#![tactic(auto)]

ghost use Rattle.triangle_laws.specs.Laws.{BoundariesClose, PairedBoundariesClose, PartnersAreTurned, SharedTrianglesOverlap, TrianglesArePaired, TrianglesAreShared};

/// Two tetrahedra with volumes above zero that have a triangle in one direction overlap.
pub fn shared_triangles_overlap()
    ensures { SharedTrianglesOverlap }
{}

/// No triangle is in more than two tetrahedra.
pub fn triangles_are_shared()
    ensures { TrianglesAreShared }
{}

/// Of a triangle in two tetrahedra each has it in the other's direction turned.
pub fn partners_are_turned()
    ensures { PartnersAreTurned }
{}

/// Triangles are paired: one in two tetrahedra has just one turned partner, and one of the boundary has none.
pub fn triangles_are_paired()
    ensures { TrianglesArePaired }
{}

/// Where the triangles of tetrahedra are paired, their boundary closes up.
pub fn paired_boundaries_close()
    ensures { PairedBoundariesClose }
{}

/// The boundary closes up: over its triangles each edge occurs as often one way as the other.
pub fn boundaries_close()
    ensures { BoundariesClose }
{}
