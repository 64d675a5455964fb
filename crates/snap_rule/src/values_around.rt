ghost use Rattle.std.specs.Prelude.{◌≡◌, ℕ, ◌+◌, ◌*◌, ◌/◌, ◌%◌, ◌^◌, ◌≤◌, unsigned_abs, map, true, All};
ghost use Rattle.std.specs.List.{range_with_len};
ghost use Rattle.definitions.specs.Lattice.{InDomain, IsDims};
ghost use Rattle.definitions.specs.Values.{value};
ghost use Rattle.lattice_laws.specs.NumberedTetrahedra.{IsInner};
ghost use Rattle.samples.specs.Stars.{IsSmallStar};
ghost use Rattle.snap_laws.specs.Around.{around};
ghost use Rattle.snap_rule.specs.Deep.{IsDeep};
ghost use Rattle.snap_rule.specs.Near.{IsSmallValue, in_order};

use crate::near::direction_of;
use bcc_lattice::{Dir, neighbour};
use samples::{Cube, Field, Star};
use st_base::{Dims, Vertex};

/// The value at the other end of edge 1 to 14; 0 where that is outside the domain.
#[inline]
fn value_beyond(field: &Field, v: Vertex, edge: u8) -> i64
    requires domain { InDomain field.now.dims v }
    requires low { 1 ≤ edge }
    requires high { edge ≤ 14 }
    ensures value { result ≡ around field.now v edge }
    ensures small { unsigned_abs result ≤ 2 ^ 37 }
{
    let Some(dir) = Dir::new(direction_of(edge)) else {
        unreachable!()
    };
    match neighbour(field.dims(), v, dir, edge <= 7) {
        Some(w) => field.value(w),
        None => 0,
    }
}

/// The values at the other ends of edges 1 to 14 of a vertex, edge by edge.
fn around_any(field: &Field, v: Vertex) -> [i64; 14]
    requires { InDomain field.now.dims v }
    ensures values { result ≡ map (around field.now v) (range_with_len 1 14) }
    ensures small { All IsSmallValue result }
{
    let mut values = [0; 14];
    for n in 0..14u8 {
        values[n as usize] = value_beyond(field, v, 1 + n);
    }
    values
}

/// The values at the other ends of edges 1 to 14, edge by edge.
#[inline(always)]
fn in_order(star: Star) -> [i64; 14]
    requires { IsSmallStar star }
    ensures values { result ≡ in_order star }
    ensures small { All IsSmallValue result }
{
    let Star { x, y, z, short, .. } = star;
    let Cube { low, high } = short;
    [
        x.high,
        y.high,
        high.low.low,
        high.low.high,
        high.high.low,
        high.high.high,
        z.high,
        x.low,
        y.low,
        low.high.high,
        low.high.low,
        low.low.high,
        low.low.low,
        z.low,
    ]
}

/// The values at a corner of the image and around it, which may be known to be deep inside.
#[inline(always)]
#[tactic(auto, using(lattice_counts::proofs::Sizes::nx_small, lattice_counts::proofs::Sizes::ny_small, lattice_counts::proofs::Sizes::nz_small))]
fn corner_star(field: &Field, v: Vertex, deep: bool) -> Star
    requires sizes { IsDims field.now.dims }
    requires domain { InDomain field.now.dims v }
    requires inner { IsInner field.now.dims v }
    requires even { v.h % 2 ≡ 0 }
    requires deep { deep ≡ true → IsDeep field.now.dims v }
    ensures own { result.own ≡ value field.now v }
    ensures around { in_order result ≡ map (around field.now v) (range_with_len 1 14) }
    ensures small { IsSmallStar result }
{
    field.corner_star(deep, v.x / 2 - 1, v.y / 2 - 1, v.h / 2 - 1)
}

/// The values at the centre of a cube of the image and around it, which may be known to be deep inside.
#[inline(always)]
#[tactic(auto, using(lattice_counts::proofs::Sizes::nx_small, lattice_counts::proofs::Sizes::ny_small, lattice_counts::proofs::Sizes::nz_small))]
fn centre_star(field: &Field, v: Vertex, deep: bool) -> Star
    requires sizes { IsDims field.now.dims }
    requires domain { InDomain field.now.dims v }
    requires inner { IsInner field.now.dims v }
    requires odd { v.h % 2 ≡ 1 }
    requires deep { deep ≡ true → IsDeep field.now.dims v }
    ensures own { result.own ≡ value field.now v }
    ensures around { in_order result ≡ map (around field.now v) (range_with_len 1 14) }
    ensures small { IsSmallStar result }
{
    field.centre_star(deep, v.x / 2 - 1, v.y / 2 - 1, v.h / 2 - 1)
}

/// Whether a vertex is a corner of the image or the centre of a cube of it.
#[tactic(auto, using(lattice_counts::proofs::Sizes::nx_small, lattice_counts::proofs::Sizes::ny_small, lattice_counts::proofs::Sizes::nz_small))]
fn is_inner(dims: Dims, v: Vertex) -> bool
    requires sizes { IsDims dims }
    ensures { result ≡ true → IsInner dims v }
{
    2 <= v.h
        && v.h <= 2 * dims.nz
        && 2 <= v.y
        && v.y <= 2 * dims.ny
        && 2 <= v.x
        && v.x <= 2 * dims.nx
}

/// Whether all corners of the cubes around a vertex are of the image.
#[tactic(auto, using(lattice_counts::proofs::Sizes::nx_small, lattice_counts::proofs::Sizes::ny_small, lattice_counts::proofs::Sizes::nz_small))]
fn is_deep(dims: Dims, v: Vertex) -> bool
    requires sizes { IsDims dims }
    requires domain { InDomain dims v }
    ensures { result ≡ true → IsDeep dims v }
{
    4 <= v.h
        && v.h + 3 <= 2 * dims.nz
        && 4 <= v.y
        && v.y + 3 <= 2 * dims.ny
        && 4 <= v.x
        && v.x + 3 <= 2 * dims.nx
}

/// The values at an inner vertex and around it.
#[inline(always)]
fn inner_star(field: &Field, v: Vertex) -> Star
    requires sizes { IsDims field.now.dims }
    requires domain { InDomain field.now.dims v }
    requires inner { IsInner field.now.dims v }
    ensures own { result.own ≡ value field.now v }
    ensures around { in_order result ≡ map (around field.now v) (range_with_len 1 14) }
    ensures small { IsSmallStar result }
{
    let deep = is_deep(field.dims(), v);
    if v.h % 2 == 0 {
        if deep {
            corner_star(field, v, true)
        } else {
            corner_star(field, v, false)
        }
    } else if deep {
        centre_star(field, v, true)
    } else {
        centre_star(field, v, false)
    }
}

/// The value at a vertex, and those at the other ends of its edges 1 to 14.
pub fn values_at(field: &Field, v: Vertex) -> (i64, [i64; 14])
    requires { InDomain field.now.dims v }
    ensures own { result.0 ≡ value field.now v }
    ensures around { result.1 ≡ map (around field.now v) (range_with_len 1 14) }
    ensures own_small { IsSmallValue result.0 }
    ensures small { All IsSmallValue result.1 }
{
    if is_inner(field.dims(), v) {
        let star = inner_star(field, v);
        (star.own, in_order(star))
    } else {
        (field.value(v), around_any(field, v))
    }
}
