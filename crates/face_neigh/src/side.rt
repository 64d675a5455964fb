ghost use Rattle.std.specs.Prelude.{◌≡◌};
ghost use Rattle.face_neigh.specs.Sides.{IsSmall, key_of, side_of};

/// A triangle of a tetrahedron: its nodes, and its place among the triangles of all.
///
/// Invariant: `low <= middle <= high`, as `new` gives them.
#[derive(Clone, Copy)]
pub struct Side {
    /// The least node.
    pub low: u32,
    /// The node between the two others.
    pub middle: u32,
    /// The greatest node.
    pub high: u32,
    /// Four times the number of the tetrahedron, and the number of the triangle in it.
    pub place: u32,
}

impl Side {
    /// The triangle with these nodes, in any order.
    pub fn new(place: u32, nodes: [u32; 3]) -> Side
        ensures side { result ≡ side_of place nodes }
        ensures small { IsSmall result }
    {
        let [a, b, c] = nodes;
        let first = a.min(b);
        let last = a.max(b);
        let inner = last.min(c);
        Side {
            low: first.min(inner),
            middle: first.max(inner),
            high: last.max(c),
            place,
        }
    }

    /// The nodes as one number. Two triangles have the same nodes exactly where their numbers are equal.
    pub fn key(&self) -> u128
        ensures { result ≡ key_of self.now }
    {
        (u128::from(self.low) * (1 << 32) + u128::from(self.middle)) * (1 << 32)
            + u128::from(self.high)
    }
}
