//! The walk over the lattice in the order of vertices: layers, the rows of a layer along y, and the vertices of a row
//! along x. The sizes of these stand here alone.
ghost use Rattle.std.specs.Prelude.{◌≡◌, ◌+◌, ◌*◌, ◌%◌, ◌<◌, ◌≤◌, ◌^◌, length};
ghost use Rattle.definitions.specs.declared.Dims.{Dims as Sizes};
ghost use Rattle.definitions.specs.Lattice.{InDomain, IsDims, id, layers, vertex, vertex_at, vertices};
ghost use Rattle.definitions.specs.Layout.{layer_len};
ghost use Rattle.lattice_counts.specs.Counts.{row_len};

use st_base::{Dims, Vertex};

/// How many numbers an axis of `n` samples has, in half units: from 0 to `2 * n + 2`.
#[inline(always)]
pub fn axis_len(n: u32) -> u32
    requires { n < 2 ^ 23 }
    ensures { result ≡ 2 * n + 3 }
{
    2 * n + 3
}

/// The number of layers.
#[inline(always)]
#[tactic(auto, using(lattice_counts::proofs::Sizes::nz_small))]
pub fn layers(dims: Dims) -> u32
    requires { IsDims dims }
    ensures layers { result ≡ layers dims }
    ensures small { result ≤ 2 ^ 24 }
{
    axis_len(dims.nz)
}

/// The number of rows of layer `h`.
#[inline(always)]
#[tactic(auto, using(lattice_counts::proofs::Sizes::ny_small))]
pub fn rows(dims: Dims, h: u32) -> u32
    requires { IsDims dims }
    ensures rows { result ≡ row_len dims.ny h }
    ensures small { result ≤ 2 ^ 23 }
{
    dims.ny + 2 - h % 2
}

/// The number of vertices of each row of layer `h`.
#[inline(always)]
#[tactic(auto, using(lattice_counts::proofs::Sizes::nx_small))]
pub fn columns(dims: Dims, h: u32) -> u32
    requires { IsDims dims }
    ensures columns { result ≡ row_len dims.nx h }
    ensures small { result ≤ 2 ^ 23 }
{
    dims.nx + 2 - h % 2
}

/// The number of vertices of layer `h`.
#[inline(always)]
#[tactic(auto, using(lattice_counts::proofs::Ranks::layer_length, lattice_counts::proofs::Sizes::layer_small))]
pub fn layer_len(dims: Dims, h: u32) -> u32
    requires { IsDims dims }
    ensures len { result ≡ layer_len dims h }
    ensures product { result ≡ row_len dims.ny h * row_len dims.nx h }
    ensures small { result < 2 ^ 25 }
{
    rows(dims, h) * columns(dims, h)
}

/// The vertex at place `i` of row `j` of layer `h`.
///
/// ```rust
/// for i in 0..columns(dims, h) {
///     let v = vertex_in_row(h, j, i);
/// }
/// ```
#[inline(always)]
pub fn vertex_in_row(h: u32, j: u32, i: u32) -> Vertex
    requires row { j < 2 ^ 24 }
    requires place { i < 2 ^ 24 }
    ensures vertex { result ≡ vertex h (j * 2 + h % 2) (i * 2 + h % 2) }
    ensures domain { (sizes : Sizes) → h < layers sizes → j < row_len sizes.ny h → i < row_len sizes.nx h → InDomain sizes result }
{
    Vertex {
        h,
        y: j * 2 + h % 2,
        x: i * 2 + h % 2,
    }
}

/// The first vertex of layer `h`.
#[inline(always)]
pub fn first_vertex(h: u32) -> Vertex
    ensures vertex { result ≡ vertex h (h % 2) (h % 2) }
    ensures domain { (sizes : Sizes) → h < layers sizes → InDomain sizes result }
{
    vertex_in_row(h, 0, 0)
}

/// The vertex after one in the order of vertices, if there is one.
#[tactic(auto, using(lattice_counts::proofs::Sizes::nx_small, lattice_counts::proofs::Sizes::ny_small, lattice_counts::proofs::Sizes::nz_small))]
pub fn next_vertex(dims: Dims, v: Vertex) -> Vertex
    requires sizes { IsDims dims }
    requires domain { InDomain dims v }
    ensures { id dims v + 1 < length (vertices dims) → result ≡ vertex_at dims (id dims v + 1) }
{
    if v.x + 2 < axis_len(dims.nx) {
        return Vertex {
            h: v.h,
            y: v.y,
            x: v.x + 2,
        };
    }
    if v.y + 2 < axis_len(dims.ny) {
        return Vertex {
            h: v.h,
            y: v.y + 2,
            x: v.h % 2,
        };
    }
    first_vertex(v.h + 1)
}
