//! Why the mesh of every field is sound: calls that do nothing and promise it, and calls that show its steps.
//!
//! `docs/SOUNDNESS.md` tells these ten steps at length.
//!
//! 1. Snapping moves a vertex by at most 2047 parts on each axis, where a half unit is 4096 (`displacement_laws::states_are_near`, `displacement_laws::displacements_are_small`).
//! 2. So within a lattice tetrahedron the displacements of two points differ by less than the points do (`moved_lattice::displacement_contracts`, and [`contract_step`] of four states).
//! 3. So no two points of the infinite lattice are moved to one place, and moved tetrahedra meet in their common vertices alone (`moved_lattice::moved_map_is_one_to_one`, `moved_lattice::moved_tetrahedra_meet`).
//! 4. Each tetrahedron of the mesh is a piece of a moved lattice tetrahedron, with its cuts on edges whose ends are not moved (`parent_laws::tets_have_parents`, `parent_laws::nodes_stand_on_edges`).
//! 5. Two pieces cut a common face alike, so any two tetrahedra of the mesh meet in their common nodes (`piece_laws::moved_pieces_meet`, `sound_laws::tets_meet`, [`same_weights`]).
//! 6. The matrix of a moved lattice tetrahedron has a dominant diagonal, so all its principal minors are above zero ([`moved_matrix`], [`dominant`]).
//! 7. The volume of a piece is that of its lattice tetrahedron times parts of cut edges and such a minor, so it is above zero (`piece_laws::pieces_have_signed_volumes`, `sound_laws::tets_are_positive`, [`det`]).
//! 8. Of tetrahedra that are positive and meet, no triangle is in more than two, and the boundary closes up (`triangle_laws::triangles_are_shared`, `triangle_laws::boundaries_close`).
//! 9. No vertex of the padding is Plus, so a triangle with a Plus vertex is in two tetrahedra and the boundary is level (`node_laws::states_are_padded`, `face_laws::mesh_boundary_is_level`).
//! 10. Together that is [`mesh_is_sound`], of every field and all shares.
#![tactic(auto)]

ghost use Rattle.std.specs.Prelude.{◌≡◌, ◌<◌, ℕ, length, sum};
ghost use Rattle.definitions.specs.Mesh.{mesh};
ghost use Rattle.definitions.specs.Soundness.{IsSound, corner_places, weight_of, weighted_place};
ghost use Rattle.conform_laws.specs.Tetrahedra.{tet_at};

pub use determinants::{Place, det, dominant};
pub use moved_matrix::{State, Tet, contract_step, moved_matrix};
pub use samples::Field;
pub use snap_rule::Shares;

/// Tetrahedra `a` and `b` of the mesh share just the hull of their common nodes: where weights on the nodes of both have
/// equal sums and give the same point, each node weighs the same in both, and one that is in one of them alone weighs nothing.
pub fn same_weights(field: &Field, shares: Shares, a: u64, b: u64, wa: [u64; 4], wb: [u64; 4])
    requires a { a < length (mesh field.now shares).tets }
    requires b { b < length (mesh field.now shares).tets }
    requires sums { sum wa ≡ sum wb }
    requires places { weighted_place (corner_places (mesh field.now shares).places (tet_at field.now shares a)) wa ≡ weighted_place (corner_places (mesh field.now shares).places (tet_at field.now shares b)) wb }
    ensures { (n : ℕ) → weight_of (tet_at field.now shares a) wa n ≡ weight_of (tet_at field.now shares b) wb n }
{}

/// The mesh of a field is sound: each tetrahedron has a volume above zero, any two share just the hull of their common
/// nodes and have not the same four, the boundary closes up and has level nodes alone, and of the vertices that are not moved
/// onto a cut those above zero are nodes and those below are not.
pub fn mesh_is_sound(field: &Field, shares: Shares)
    ensures { IsSound field.now shares }
{}
