//! Laws of the geometry of all pieces, over the infinite lattice: they meet in their common nodes, and their volumes have one sign.
//!
//! Signs, cuts and displacements are given at all vertices and edges. Nothing is said of `mesh` itself.
#![tactic(auto)]

ghost use Rattle.piece_laws.specs.Laws.{MovedPiecesMeet, PiecesHaveSignedVolumes};

/// Pieces of two moved lattice tetrahedra meet in their common nodes alone.
pub fn moved_pieces_meet()
    ensures { MovedPiecesMeet }
{}

/// The volume of a piece has the sign of the order of its nodes times that of its lattice tetrahedron.
pub fn pieces_have_signed_volumes()
    ensures { PiecesHaveSignedVolumes }
{}
