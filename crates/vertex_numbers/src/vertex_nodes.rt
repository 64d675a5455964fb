ghost use Rattle.std.specs.Prelude.{◌≡◌, ◌+◌, ◌<◌, ◌%◌, ◌^◌, count_ones};

/// The nodes at a vertex: how many nodes of the mesh stand before the first, and the bits of these.
#[derive(Clone, Copy)]
pub struct VertexNodes {
    pub before: u32,
    pub bits: u8,
}

impl VertexNodes {
    /// The number of the cut on the edge upwards in a direction, or of the vertex itself for 0, if it is a node.
    #[inline(always)]
    pub fn number(&self, dir: u32) -> u32
        requires few { self.now.before + 8 < 2 ^ 32 }
        requires dir { dir < 8 }
        ensures { result ≡ self.now.before + count_ones (self.now.bits % 2 ^ dir) }
    {
        let below = self.bits % (1 << dir);
        self.before + below.count_ones()
    }
}
