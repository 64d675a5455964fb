ghost use Rattle.face_neigh.specs.NeighbourLaws.{NeighboursAreMutual, NeighboursEndAtBoundary};

/// Where one tetrahedron is a neighbour of another, the other is one of it, across the same triangle.
pub fn neighbours_are_mutual()
    ensures { NeighboursAreMutual }
{}

/// There is no neighbour exactly across a boundary triangle.
pub fn neighbours_end_at_boundary()
    ensures { NeighboursEndAtBoundary }
{}
