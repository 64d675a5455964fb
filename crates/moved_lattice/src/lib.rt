//! Laws of the lattice whose vertices are moved. They are of the infinite lattice, and know nothing of fields and states.
//!
//! A displacement is at most 2047 parts of 4096 of a half unit on each axis. Then the moved map is one to one, and two
//! moved lattice tetrahedra meet in their common vertices alone.
#![tactic(auto)]

ghost use Rattle.moved_lattice.specs.Laws.{Contracts, EveryPointIsHeld, MovedTetrahedraMeet, OneToOne, RowsDominate};

/// A moved matrix has a dominant diagonal: in each row the vertex's own weight is above the sizes of the others together.
pub fn moved_rows_dominate()
    ensures { RowsDominate }
{}

/// Within a lattice tetrahedron the displacement contracts: of two points the displacements differ by less than the points do.
pub fn displacement_contracts()
    ensures { Contracts }
{}

/// Each rational point is in a lattice tetrahedron.
pub fn every_point_is_held()
    ensures { EveryPointIsHeld }
{}

/// The moved map is one to one: two points with one moved place are one point.
pub fn moved_map_is_one_to_one()
    ensures { OneToOne }
{}

/// Two moved lattice tetrahedra meet in their common vertices alone.
pub fn moved_tetrahedra_meet()
    ensures { MovedTetrahedraMeet }
{}
