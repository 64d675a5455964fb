ghost use Rattle.std.specs.Prelude.{◌≡◌, ◌≤◌, true, Some};
ghost use Rattle.definitions.specs.Lattice.{InDomain, IsDims, id as id_of};
ghost use Rattle.vertex_numbers.specs.Around.{sign_towards};
ghost use Rattle.vertex_numbers.specs.Alike.{HasColumn, IsColumn, IsUp};
ghost use Rattle.vertex_numbers.specs.Sources.{KnowsAround};
ghost use Rattle.vertex_numbers.specs.Steps.{AreColumnIds, AreSteps};

use crate::StateSource;
use crate::around::sign_there;
use crate::steps::{ColumnIds, Steps, column_ids};
use definitions::Sign;
use st_base::{Dims, Vertex};

/// Whether a neighbour upwards with an id has a sign.
#[inline(always)]
fn is_at<S: StateSource>(
    from: &mut S,
    dims: Dims,
    v: Vertex,
    number: u8,
    w: Vertex,
    id: u32,
    sign: Sign,
) -> bool
    requires dims { IsDims dims }
    requires sizes { S.sizes from.old ≡ dims }
    requires domain { InDomain dims v }
    requires known { KnowsAround dims (S.knows from.old) v.h }
    requires low { 1 ≤ number }
    requires high { number ≤ 7 }
    requires neighbour { IsUp dims v number w }
    requires id { id ≡ id_of dims w }
    ensures sign { result ≡ true → sign_towards dims (S.told from.old) v true number ≡ Some sign }
    ensures same { S.unchanged from.old from.new }
{
    sign_there(from, dims, v, number, w, id) == sign
}

/// Whether the vertices of a column in the layer above a vertex have a sign.
#[inline(always)]
#[tactic(auto, using(lattice_counts::proofs::Sizes::nx_small, lattice_counts::proofs::Sizes::ny_small, lattice_counts::proofs::Sizes::nz_small, crate::proofs::Upwards::up_3, crate::proofs::Upwards::up_5))]
fn is_above<S: StateSource>(from: &mut S, dims: Dims, v: Vertex, ids: ColumnIds, sign: Sign) -> bool
    requires dims { IsDims dims }
    requires sizes { S.sizes from.old ≡ dims }
    requires domain { InDomain dims v }
    requires known { KnowsAround dims (S.knows from.old) v.h }
    requires column { HasColumn dims v }
    requires ids { AreColumnIds dims v ids }
    ensures third { result ≡ true → sign_towards dims (S.told from.old) v true 3 ≡ Some sign }
    ensures fifth { result ≡ true → sign_towards dims (S.told from.old) v true 5 ≡ Some sign }
    ensures same { S.unchanged from.old from.new }
{
    let Vertex { h, y, x } = v;
    let third = Vertex {
        h: h + 1,
        y: y - 1,
        x: x - 1,
    };
    let fifth = Vertex {
        h: h + 1,
        y: y + 1,
        x: x - 1,
    };
    if is_at(from, dims, v, 3, third, ids.third, sign) {
        is_at(from, dims, v, 5, fifth, ids.fifth, sign)
    } else {
        false
    }
}

/// Whether the vertices of a column beside a vertex in its layer and in the second above it have a sign.
#[inline(always)]
#[tactic(auto, using(lattice_counts::proofs::Sizes::nx_small, lattice_counts::proofs::Sizes::ny_small, lattice_counts::proofs::Sizes::nz_small, crate::proofs::Upwards::up_2, crate::proofs::Upwards::up_7))]
fn is_beside<S: StateSource>(
    from: &mut S,
    dims: Dims,
    v: Vertex,
    ids: ColumnIds,
    sign: Sign,
) -> bool
    requires dims { IsDims dims }
    requires sizes { S.sizes from.old ≡ dims }
    requires domain { InDomain dims v }
    requires known { KnowsAround dims (S.knows from.old) v.h }
    requires column { HasColumn dims v }
    requires ids { AreColumnIds dims v ids }
    ensures second { result ≡ true → sign_towards dims (S.told from.old) v true 2 ≡ Some sign }
    ensures seventh { result ≡ true → sign_towards dims (S.told from.old) v true 7 ≡ Some sign }
    ensures same { S.unchanged from.old from.new }
{
    let Vertex { h, y, x } = v;
    let seventh = Vertex { h: h + 2, y, x };
    let second = Vertex { h, y: y + 2, x };
    if is_at(from, dims, v, 7, seventh, ids.seventh, sign) {
        is_at(from, dims, v, 2, second, ids.second, sign)
    } else {
        false
    }
}

/// Whether the vertices of a column have a sign.
#[inline(always)]
pub fn has_column<S: StateSource>(
    from: &mut S,
    dims: Dims,
    v: Vertex,
    id: u32,
    steps: Steps,
    sign: Sign,
) -> bool
    requires dims { IsDims dims }
    requires sizes { S.sizes from.old ≡ dims }
    requires domain { InDomain dims v }
    requires known { KnowsAround dims (S.knows from.old) v.h }
    requires column { HasColumn dims v }
    requires id { id ≡ id_of dims v }
    requires steps { AreSteps dims v.h v.y steps }
    ensures column { result ≡ true → IsColumn dims (S.told from.old) v sign }
    ensures same { S.unchanged from.old from.new }
{
    if from.sign_by_id(v, id) != sign {
        return false;
    }
    let ids = column_ids(dims, v, id, steps);
    if is_beside(from, dims, v, ids, sign) {
        is_above(from, dims, v, ids, sign)
    } else {
        false
    }
}
