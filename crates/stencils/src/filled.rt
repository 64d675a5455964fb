/// The pieces of a lattice tetrahedron, of which the first `len` are there: each the keys of its four nodes.
#[derive(Clone, Copy, Debug, PartialEq, Eq)]
pub struct Pieces {
    pub len: u8,
    pub of: [[u32; 4]; 3],
}
