ghost use Rattle.std.specs.Prelude.{◌≡◌, ◌+◌, ◌*◌, ◌^◌, ◌<◌, ◌≤◌, length};
ghost use Rattle.definitions.specs.Lattice.{layers, vertices};
ghost use Rattle.definitions.specs.Layout.{layer_len, layer_start, slabs, slab_from, slab_to, reach_from, reach_to};

use crate::vertices::ids_below;
use crate::walk::{layer_len, layers};
use st_base::Dims;

/// The layers of the lattice in slabs of `2 * slab` layers, for a slab size of 1 to 64.
#[derive(Clone, Copy, Debug, PartialEq, Eq)]
pub struct Layout {
    pub dims: Dims,
    pub slab: u32,
}

impl Layout {
    ghost use Rattle.bcc_lattice.specs.Layouts.{IsLayout};

    /// The number of layers.
    pub fn layers(&self) -> u32
        requires { IsLayout self.now.dims self.now.slab }
        ensures layers { result ≡ layers self.now.dims }
        ensures small { result ≤ 2 ^ 24 }
    {
        layers(self.dims)
    }

    /// The number of slabs; the last one may hold fewer layers than the others.
    pub fn slabs(&self) -> u32
        requires { IsLayout self.now.dims self.now.slab }
        ensures slabs { result ≡ slabs self.now.dims self.now.slab }
        ensures small { result ≤ 2 ^ 23 }
    {
        self.layers().div_ceil(2 * self.slab)
    }

    /// The id of the first vertex of layer `h`.
    pub fn layer_start(&self, h: u32) -> u32
        requires layout { IsLayout self.now.dims self.now.slab }
        requires layer { h < layers self.now.dims }
        ensures start { result ≡ layer_start self.now.dims h }
        ensures small { result ≤ 2 ^ 27 }
    {
        ids_below(self.dims, h)
    }

    /// The number of vertices of layer `h`.
    pub fn layer_len(&self, h: u32) -> u32
        requires layout { IsLayout self.now.dims self.now.slab }
        requires layer { h < layers self.now.dims }
        ensures len { result ≡ layer_len self.now.dims h }
        ensures small { result < 2 ^ 25 }
    {
        layer_len(self.dims, h)
    }

    /// The first layer of slab `j`, and one past its last.
    pub fn layers_of(&self, j: u32) -> (u32, u32)
        requires layout { IsLayout self.now.dims self.now.slab }
        requires slab { j < slabs self.now.dims self.now.slab }
        ensures first { result.0 ≡ slab_from self.now.slab j }
        ensures past { result.1 ≡ slab_to self.now.dims self.now.slab j }
        ensures some { result.0 < result.1 }
        ensures within { result.1 ≤ layers self.now.dims }
    {
        let first = 2 * self.slab * j;
        (first, self.layers().min(first + 2 * self.slab))
    }

    /// The first layer of the reach of slab `j`, and one past its last: its layers, the two below and
    /// the two above, where they exist.
    pub fn reach_of(&self, j: u32) -> (u32, u32)
        requires layout { IsLayout self.now.dims self.now.slab }
        requires slab { j < slabs self.now.dims self.now.slab }
        ensures first { result.0 ≡ reach_from self.now.slab j }
        ensures past { result.1 ≡ reach_to self.now.dims self.now.slab j }
        ensures some { result.0 < result.1 }
        ensures within { result.1 ≤ layers self.now.dims }
    {
        let (first, past) = self.layers_of(j);
        (first.saturating_sub(2), self.layers().min(past + 2))
    }
}
