//! The extremes of a mesh bound all of its angles.
//!
//! Each law is the contract of a function that does nothing. The definitions are those of the crate `definitions`.
#![tactic(auto)]

ghost use Rattle.angle_laws.specs.Bounds.{AnglesAreBounded};

/// The extremes of the mesh of a field are two of its angles, between which all angles lie, and there are none exactly
/// where the mesh has no tetrahedra.
pub fn angles_are_bounded()
    ensures { AnglesAreBounded }
{}
