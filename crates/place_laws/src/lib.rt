//! Laws of places: the nodes of a mesh stand inside the padded image.
//!
//! Each law is the contract of a function that does nothing. The definitions are those of the crate `definitions`.
#![tactic(auto)]

ghost use Rattle.place_laws.specs.Inside.{NodesStandInside};

/// The nodes of the mesh of a field stand inside the padded image.
pub fn nodes_stand_inside()
    ensures { NodesStandInside }
{}
