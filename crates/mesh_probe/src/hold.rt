use st_base::Vertex;

/// A tetrahedron of the mesh that holds a point: the lowest vertex of its lattice tetrahedron, its rank among the pieces
/// that have this lowest vertex, the keys of its nodes, and their weights at the point.
#[derive(Clone, Copy, Debug, PartialEq, Eq)]
pub struct Hold {
    pub lowest: Vertex,
    pub rank: u8,
    pub nodes: [u32; 4],
    pub weights: [u64; 4],
}
