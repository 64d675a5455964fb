ghost use Rattle.std.specs.Prelude.{◌≡◌, ℕ, ◌+◌, ◌*◌, ◌^◌, ◌<◌, ◌≤◌, ◌↔◌, ℤ, pos, negsuc, ◌≤ℤ◌, ◌<ℤ◌, ◌+ℤ◌, neg_ℤ, IsNone, IfSome, length, if◌then◌else◌, [], ◌∷◌, nat_lt};
ghost use Rattle.definitions.specs.Lattice.{IsDims, InDomain, in_domain, id as id_of, layers, vertices, vertex_at, neighbour, step};
ghost use Rattle.definitions.specs.Layout.{layer_start};
ghost use Rattle.bcc_lattice.specs.Directions.{natural_of, IsSmallStep};
ghost use Rattle.lattice_counts.specs.Counts.{below_layer, even_len, odd_len, row_len, before_in_layer, StandsInLayer};

use crate::Dir;
use crate::walk::{axis_len, columns, layer_len, layers, vertex_in_row};
use st_base::{Dims, Vertex};

/// Whether this is a vertex of the lattice: all three numbers even or all odd, and none beyond the
/// padding corners.
#[tactic(auto, using(lattice_counts::proofs::Sizes::nx_small, lattice_counts::proofs::Sizes::ny_small, lattice_counts::proofs::Sizes::nz_small))]
pub fn in_domain(dims: Dims, v: Vertex) -> bool
    requires { IsDims dims }
    ensures { result ≡ in_domain dims v }
{
    v.h < layers(dims)
        && v.y < axis_len(dims.ny)
        && v.x < axis_len(dims.nx)
        && v.y % 2 == v.h % 2
        && v.x % 2 == v.h % 2
}

/// How many vertices an even layer has, and an odd one.
#[derive(Clone, Copy)]
struct LayerPair {
    even: u32,
    odd: u32,
}

/// The numbers of vertices of the layers of an image.
#[inline(always)]
#[tactic(auto, using(lattice_counts::proofs::Sizes::even_small, lattice_counts::proofs::Sizes::odd_small))]
fn layer_pair(dims: Dims) -> LayerPair
    requires { IsDims dims }
    ensures even { result.even ≡ even_len dims }
    ensures odd { result.odd ≡ odd_len dims }
    ensures small { result.even + result.odd < 2 ^ 26 }
{
    LayerPair {
        even: layer_len(dims, 0),
        odd: layer_len(dims, 1),
    }
}

/// How many vertices stand in the layers below `h`, which may be one past the last: the id of the first
/// vertex of layer `h`. Two layers together, an even one and the odd one above it, are a constant number.
#[tactic(auto, using(lattice_counts::proofs::Ranks::start, lattice_counts::proofs::Sizes::nx_small, lattice_counts::proofs::Sizes::ny_small, lattice_counts::proofs::Sizes::even_small, lattice_counts::proofs::Sizes::odd_small, lattice_counts::proofs::Ranks::pairs_small, lattice_counts::proofs::Ranks::below_layer_small))]
pub fn ids_below(dims: Dims, h: u32) -> u32
    requires sizes { IsDims dims }
    requires layer { h ≤ layers dims }
    ensures value { result ≡ below_layer dims h }
    ensures start { result ≡ layer_start dims h }
    ensures small { result ≤ 2 ^ 27 }
{
    let LayerPair { even, odd } = layer_pair(dims);
    let pairs = h / 2 * (even + odd);
    if h % 2 == 0 { pairs } else { pairs + even }
}

/// The id of a vertex: how many vertices stand before it. Ids are below 2^27, so a node's key, eight
/// times an id and a direction, is below 2^30.
///
/// ```rust
/// let dims = Dims { nx: 1, ny: 1, nz: 1 };
/// let centre = Vertex { h: 2, y: 2, x: 2 };
/// assert_eq!(rt; id(dims, centre), 17);
/// ```
#[tactic(auto, using(lattice_counts::proofs::Sizes::nx_small, lattice_counts::proofs::Ranks::place_small, lattice_counts::proofs::Ranks::rank, lattice_counts::proofs::Ranks::id_within))]
pub fn id(dims: Dims, v: Vertex) -> u32
    requires sizes { IsDims dims }
    requires domain { InDomain dims v }
    ensures id { result ≡ id_of dims v }
    ensures within { result < length (vertices dims) }
    ensures small { result < 2 ^ 27 }
{
    let row = columns(dims, v.h);
    ids_below(dims, v.h) + (v.y / 2 * row + v.x / 2)
}

/// A layer, and how many of its vertices stand before one of them.
#[derive(Clone, Copy)]
struct LayerPlace {
    h: u32,
    before: u32,
}

/// Where the vertex of an id stands.
fn layer_place(dims: Dims, id: u32) -> LayerPlace
    requires sizes { IsDims dims }
    requires id { id < length (vertices dims) }
    ensures { StandsInLayer dims id result.h result.before }
{
    let LayerPair { even, odd } = layer_pair(dims);
    let twice = id / (even + odd);
    let rest = id % (even + odd);
    if rest < even {
        LayerPlace {
            h: 2 * twice,
            before: rest,
        }
    } else {
        LayerPlace {
            h: 2 * twice + 1,
            before: rest - even,
        }
    }
}

/// The vertex before which so many vertices of its layer stand.
fn vertex_in(dims: Dims, place: LayerPlace) -> Vertex
    requires sizes { IsDims dims }
    requires layer { place.h < layers dims }
    requires place { place.before < row_len dims.ny place.h * row_len dims.nx place.h }
    ensures layer { result.h ≡ place.h }
    ensures domain { InDomain dims result }
    ensures before { before_in_layer dims result ≡ place.before }
{
    let row = columns(dims, place.h);
    vertex_in_row(place.h, place.before / row, place.before % row)
}

/// How many vertices there are, at most 2^27: ids are the numbers below.
#[tactic(auto, using(lattice_counts::proofs::Sizes::nz_small, lattice_counts::proofs::Ranks::all_length))]
pub fn vertex_count(dims: Dims) -> u32
    requires { IsDims dims }
    ensures count { result ≡ length (vertices dims) }
    ensures small { result ≤ 2 ^ 27 }
{
    ids_below(dims, layers(dims))
}

/// The vertex of an id; none where the id is no vertex's.
pub fn vertex_of(dims: Dims, id: u32) -> Option<Vertex>
    requires { IsDims dims }
    ensures none { IsNone result ↔ (length (vertices dims) ≤ id) }
    ensures vertex { IfSome result (λ v. v ≡ vertex_at dims id) }
    ensures domain { IfSome result (InDomain dims) }
    ensures id { IfSome result (λ v. id_of dims v ≡ id) }
{
    if id >= vertex_count(dims) {
        return None;
    }
    Some(vertex_in(dims, layer_place(dims, id)))
}

/// A coordinate after a step of at most two half units, or the same step back.
fn coordinate(at: u32, step: i32, up: bool) -> Option<u32>
    requires step { IsSmallStep step }
    requires at { at < 2 ^ 28 }
    ensures { result ≡ natural_of (pos at +ℤ (if up then step else neg_ℤ step)) }
{
    let moved = if up {
        at as i64 + step as i64
    } else {
        at as i64 - step as i64
    };
    if moved < 0 { None } else { Some(moved as u32) }
}

/// A step on the lattice, in half units.
#[derive(Clone, Copy)]
pub struct Step {
    pub x: i32,
    pub y: i32,
    pub h: i32,
}

/// The step in a direction.
pub fn step_of(dir: Dir) -> Step
    ensures x { result.x ≡ (step dir).x }
    ensures y { result.y ≡ (step dir).y }
    ensures h { result.h ≡ (step dir).h }
    ensures x_small { IsSmallStep result.x }
    ensures y_small { IsSmallStep result.y }
    ensures h_small { IsSmallStep result.h }
{
    match dir.number() {
        1 => Step { x: 2, y: 0, h: 0 },
        2 => Step { x: 0, y: 2, h: 0 },
        3 => Step { x: -1, y: -1, h: 1 },
        4 => Step { x: 1, y: -1, h: 1 },
        5 => Step { x: -1, y: 1, h: 1 },
        6 => Step { x: 1, y: 1, h: 1 },
        _ => Step { x: 0, y: 0, h: 2 },
    }
}

/// The neighbour of a vertex in a direction, or in the opposite one where `up` is false; none where that
/// is outside the domain.
#[tactic(auto, unfolding(definitions::specs::Lattice::neighbour), using(lattice_counts::proofs::Sizes::nx_small, lattice_counts::proofs::Sizes::ny_small, lattice_counts::proofs::Sizes::nz_small))]
pub fn neighbour(dims: Dims, v: Vertex, dir: Dir, up: bool) -> Option<Vertex>
    requires sizes { IsDims dims }
    requires domain { InDomain dims v }
    ensures vertex { result ≡ neighbour dims v dir up }
    ensures domain { IfSome result (InDomain dims) }
{
    let step = step_of(dir);
    let h = coordinate(v.h, step.h, up)?;
    let y = coordinate(v.y, step.y, up)?;
    let x = coordinate(v.x, step.x, up)?;
    let w = Vertex { h, y, x };
    if in_domain(dims, w) { Some(w) } else { None }
}
