//! Laws of the faces between lattice tetrahedra: which pieces lie on both sides, and why the nodes of boundary triangles are level.
#![tactic(auto)]

ghost use Rattle.face_laws.specs.Laws.{BoundariesAreNumbered, BoundaryIsLevel, FacesHaveTwoSides, MeshBoundaryIsLevel, SidesFitEachCase, StarsAreWhole};

/// Around a vertex that is no padding no lattice tetrahedron is missing.
pub fn stars_are_whole()
    ensures { StarsAreWhole }
{}

/// A face with a vertex that is no padding is that of two lattice tetrahedra.
pub fn faces_have_two_sides()
    ensures { FacesHaveTwoSides }
{}

/// In each of the 81 cases of signs the triangles of the pieces fit together on faces.
pub fn sides_fit_each_case()
    ensures { SidesFitEachCase }
{}

/// The nodes of the boundary of all pieces are level, where no vertex of the padding is Plus.
pub fn boundary_is_level()
    ensures { BoundaryIsLevel }
{}

/// Tetrahedra whose nodes are numbered anew keep their boundary, where each number leads back to its node.
pub fn boundaries_are_numbered()
    ensures { BoundariesAreNumbered }
{}

/// The nodes of the boundary of a field's mesh are level.
pub fn mesh_boundary_is_level()
    ensures { MeshBoundaryIsLevel }
{}
