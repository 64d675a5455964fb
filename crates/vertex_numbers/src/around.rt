ghost use Rattle.std.specs.Prelude.{◌≡◌, ◌≤◌, ◌||◌, not, true, Some};
ghost use Rattle.definitions.specs.Lattice.{InDomain, IsDims, id as id_of};
ghost use Rattle.definitions.specs.States.{sign_of_state};
ghost use Rattle.definitions.specs.Stencils.{is_plus};
ghost use Rattle.vertex_numbers.specs.Alike.{IsUp};
ghost use Rattle.vertex_numbers.specs.Later.{AreLater, HasAllLater};
ghost use Rattle.vertex_numbers.specs.Around.{sign_towards, signs_towards, is_plus_there, has_plus_there};
ghost use Rattle.vertex_numbers.specs.Sources.{KnowsAround};

use crate::StateSource;
use crate::later::{Later, later_ids};
use bcc_lattice::{Dir, id, neighbour, sign_of};
use definitions::Sign;
use st_base::{Dims, Vertex};

/// The sign of a vertex, and those of its neighbours upwards in directions 1 to 7 where these are in the
/// domain.
#[derive(Clone, Copy)]
pub struct Around {
    pub own: Sign,
    pub up: [Option<Sign>; 7],
}

/// Whether there is a Plus.
fn is_plus(sign: Option<Sign>) -> bool
    ensures { result ≡ is_plus_there sign }
{
    match sign {
        Some(Sign::Plus) => true,
        _ => false,
    }
}

/// The sign of the neighbour upwards or downwards in a direction, if it is in the domain.
#[inline(always)]
pub fn sign_towards<S: StateSource>(
    from: &mut S,
    dims: Dims,
    v: Vertex,
    up: bool,
    number: u8,
) -> Option<Sign>
    requires dims { IsDims dims }
    requires sizes { S.sizes from.old ≡ dims }
    requires domain { InDomain dims v }
    requires known { KnowsAround dims (S.knows from.old) v.h }
    requires low { 1 ≤ number }
    requires high { number ≤ 7 }
    ensures sign { result ≡ sign_towards dims (S.told from.old) v up number }
    ensures same { S.unchanged from.old from.new }
{
    let Some(dir) = Dir::new(number) else {
        unreachable!()
    };
    match neighbour(dims, v, dir, up) {
        Some(w) => Some(sign_of(from.state(w))),
        None => None,
    }
}

/// The sign of a neighbour upwards that is known to be in the domain.
#[inline(always)]
pub fn sign_there<S: StateSource>(
    from: &mut S,
    _dims: Dims,
    _v: Vertex,
    _number: u8,
    w: Vertex,
    id: u32,
) -> Sign
    requires dims { IsDims _dims }
    requires sizes { S.sizes from.old ≡ _dims }
    requires domain { InDomain _dims _v }
    requires known { KnowsAround _dims (S.knows from.old) _v.h }
    requires low { 1 ≤ _number }
    requires high { _number ≤ 7 }
    requires neighbour { IsUp _dims _v _number w }
    requires id { id ≡ id_of _dims w }
    ensures sign { sign_towards _dims (S.told from.old) _v true _number ≡ Some result }
    ensures same { S.unchanged from.old from.new }
{
    from.sign_by_id(w, id)
}

/// The signs upwards of a vertex, where all its neighbours upwards are in the domain.
#[inline(always)]
#[tactic(auto, using(lattice_counts::proofs::Sizes::nx_small, lattice_counts::proofs::Sizes::ny_small, lattice_counts::proofs::Sizes::nz_small, crate::proofs::Upwards::up_1, crate::proofs::Upwards::up_2, crate::proofs::Upwards::up_3, crate::proofs::Upwards::up_4, crate::proofs::Upwards::up_5, crate::proofs::Upwards::up_6, crate::proofs::Upwards::up_7))]
fn signs_within<S: StateSource>(
    from: &mut S,
    dims: Dims,
    v: Vertex,
    ids: Later,
) -> [Option<Sign>; 7]
    requires dims { IsDims dims }
    requires sizes { S.sizes from.old ≡ dims }
    requires domain { InDomain dims v }
    requires known { KnowsAround dims (S.knows from.old) v.h }
    requires all { HasAllLater dims v }
    requires ids { AreLater dims v ids }
    ensures up { result ≡ signs_towards dims (S.told from.old) v true }
    ensures same { S.unchanged from.old from.new }
{
    let Vertex { h, y, x } = v;
    let (above, below, right) = (y + 1, y - 1, x + 1);
    let first = sign_there(from, dims, v, 1, Vertex { h, y, x: x + 2 }, ids.first);
    let second = sign_there(from, dims, v, 2, Vertex { h, y: y + 2, x }, ids.second);
    let left = x - 1;
    let up = h + 1;
    let third = sign_there(
        from,
        dims,
        v,
        3,
        Vertex {
            h: up,
            y: below,
            x: left,
        },
        ids.third,
    );
    let fourth = sign_there(
        from,
        dims,
        v,
        4,
        Vertex {
            h: up,
            y: below,
            x: right,
        },
        ids.fourth,
    );
    let fifth = sign_there(
        from,
        dims,
        v,
        5,
        Vertex {
            h: up,
            y: above,
            x: left,
        },
        ids.fifth,
    );
    let sixth = sign_there(
        from,
        dims,
        v,
        6,
        Vertex {
            h: up,
            y: above,
            x: right,
        },
        ids.sixth,
    );
    let seventh = sign_there(from, dims, v, 7, Vertex { h: h + 2, y, x }, ids.seventh);
    [
        Some(first),
        Some(second),
        Some(third),
        Some(fourth),
        Some(fifth),
        Some(sixth),
        Some(seventh),
    ]
}

/// The signs upwards of a vertex.
fn signs_anywhere<S: StateSource>(from: &mut S, dims: Dims, v: Vertex) -> [Option<Sign>; 7]
    requires dims { IsDims dims }
    requires sizes { S.sizes from.old ≡ dims }
    requires domain { InDomain dims v }
    requires known { KnowsAround dims (S.knows from.old) v.h }
    ensures up { result ≡ signs_towards dims (S.told from.old) v true }
    ensures same { S.unchanged from.old from.new }
{
    let mut up = [None; 7];
    for n in 0..7u8 {
        up[n as usize] = sign_towards(from, dims, v, true, n + 1);
    }
    up
}

/// The signs upwards of a vertex, at once where all its neighbours upwards are in the domain.
#[inline(always)]
#[tactic(auto, using(crate::proofs::Upwards::column_here))]
fn signs_upwards<S: StateSource>(from: &mut S, dims: Dims, v: Vertex) -> [Option<Sign>; 7]
    requires dims { IsDims dims }
    requires sizes { S.sizes from.old ≡ dims }
    requires domain { InDomain dims v }
    requires known { KnowsAround dims (S.knows from.old) v.h }
    ensures up { result ≡ signs_towards dims (S.told from.old) v true }
    ensures same { S.unchanged from.old from.new }
{
    match later_ids(dims, v, id(dims, v)) {
        Some(ids) => signs_within(from, dims, v, ids),
        None => signs_anywhere(from, dims, v),
    }
}

/// The signs at a vertex and upwards of it.
#[inline(always)]
pub fn signs_around<S: StateSource>(from: &mut S, dims: Dims, v: Vertex) -> Around
    requires dims { IsDims dims }
    requires sizes { S.sizes from.old ≡ dims }
    requires domain { InDomain dims v }
    requires known { KnowsAround dims (S.knows from.old) v.h }
    ensures own { result.own ≡ sign_of_state (S.told from.old v) }
    ensures up { result.up ≡ signs_towards dims (S.told from.old) v true }
    ensures same { S.unchanged from.old from.new }
{
    let own = sign_of(from.state(v));
    let up = signs_upwards(from, dims, v);
    Around { own, up }
}

/// Whether one of these is Plus.
pub fn has_plus(signs: &[Option<Sign>; 7]) -> bool
    ensures { result ≡ has_plus_there signs.now }
{
    signs.iter().any(|sign| is_plus(*sign))
}

/// Whether neither the vertex nor a neighbour upwards is Plus.
pub fn lacks_plus(around: &Around) -> bool
    ensures { result ≡ not (is_plus around.now.own || has_plus_there around.now.up) }
{
    !is_plus(Some(around.own)) && !has_plus(&around.up)
}

/// Whether a neighbour upwards or downwards is Plus.
pub fn has_plus_towards<S: StateSource>(from: &mut S, dims: Dims, v: Vertex, up: bool) -> bool
    requires dims { IsDims dims }
    requires sizes { S.sizes from.old ≡ dims }
    requires domain { InDomain dims v }
    requires known { KnowsAround dims (S.knows from.old) v.h }
    ensures plus { result ≡ has_plus_there (signs_towards dims (S.told from.old) v up) }
    ensures same { S.unchanged from.old from.new }
{
    for n in 0..7u8 {
        if is_plus(sign_towards(from, dims, v, up, n + 1)) {
            return true;
        }
    }
    false
}
