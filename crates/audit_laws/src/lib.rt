//! Laws of finished files: the texts of a mesh are read back as this mesh, and found sound.
//!
//! Each law is the contract of a function that does nothing.
#![tactic(auto)]

ghost use Rattle.audit_laws.specs.Laws.{ConformingAreSound, MeshIsReadBack, NodesAreReadBack, TetsAreReadBack};

/// The text of nodes is read back as these nodes, each place times the step.
pub fn nodes_are_read_back()
    ensures { NodesAreReadBack }
{}

/// The text of tetrahedra is read back as these tetrahedra.
pub fn tets_are_read_back()
    ensures { TetsAreReadBack }
{}

/// Tetrahedra with volumes above zero that meet in their common nodes alone are found sound.
pub fn conforming_are_sound()
    ensures { ConformingAreSound }
{}

/// The texts of the mesh of any field are read back as this mesh, and found sound.
pub fn mesh_is_read_back()
    ensures { MeshIsReadBack }
{}
