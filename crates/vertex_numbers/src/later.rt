ghost use Rattle.std.specs.Prelude.{◌≡◌, ◌<◌, true, length, IfSome};
ghost use Rattle.definitions.specs.Lattice.{InDomain, IsDims, id as id_of, vertices};
ghost use Rattle.vertex_numbers.specs.Later.{AreBelow, AreLater, HasAllLater, HaveSign};

use crate::steps::{column_ids, steps_of};
use bcc_lattice::layers;
use definitions::Sign;
use snap_rule::States;
use st_base::{Dims, Vertex};

/// The ids of the neighbours of a vertex upwards, in directions 1 to 7.
#[derive(Clone, Copy)]
pub struct Later {
    pub first: u32,
    pub second: u32,
    pub third: u32,
    pub fourth: u32,
    pub fifth: u32,
    pub sixth: u32,
    pub seventh: u32,
}

/// Whether all neighbours of a vertex upwards are in the domain.
#[inline(always)]
#[tactic(auto, using(lattice_counts::proofs::Sizes::nx_small, lattice_counts::proofs::Sizes::ny_small, lattice_counts::proofs::Sizes::nz_small))]
pub fn has_all_later(dims: Dims, v: Vertex) -> bool
    requires sizes { IsDims dims }
    requires domain { InDomain dims v }
    ensures { result ≡ true → HasAllLater dims v }
{
    1 <= v.x
        && 1 <= v.y
        && v.x + 2 < 2 * dims.nx + 3
        && v.y + 2 < 2 * dims.ny + 3
        && v.h + 2 < layers(dims)
}

/// The ids of the neighbours of a vertex upwards, which are all in the domain.
#[inline(always)]
#[tactic(auto, using(lattice_counts::proofs::Sizes::nx_small, lattice_counts::proofs::Sizes::ny_small, lattice_counts::proofs::Sizes::nz_small))]
fn ids_of(dims: Dims, v: Vertex, id: u32) -> Later
    requires sizes { IsDims dims }
    requires domain { InDomain dims v }
    requires id { id ≡ id_of dims v }
    requires all { HasAllLater dims v }
    ensures later { AreLater dims v result }
    ensures below { AreBelow (length (vertices dims)) result }
{
    let ids = column_ids(dims, v, id, steps_of(dims, v.h, v.y));
    Later {
        first: id + 1,
        second: ids.second,
        third: ids.third,
        fourth: ids.third + 1,
        fifth: ids.fifth,
        sixth: ids.fifth + 1,
        seventh: ids.seventh,
    }
}

/// The ids of the neighbours of a vertex upwards, if all are in the domain.
#[inline(always)]
pub fn later_ids(dims: Dims, v: Vertex, id: u32) -> Option<Later>
    requires sizes { IsDims dims }
    requires domain { InDomain dims v }
    requires id { id ≡ id_of dims v }
    ensures all { IfSome result (λ ids. HasAllLater dims v) }
    ensures later { IfSome result (AreLater dims v) }
    ensures below { IfSome result (AreBelow (length (vertices dims))) }
{
    if has_all_later(dims, v) {
        Some(ids_of(dims, v, id))
    } else {
        None
    }
}

/// Whether the vertices of an id and of these have a sign.
#[inline(always)]
pub fn have_sign(states: &States, own: u32, later: &Later, sign: Sign) -> bool
    requires own { own < length (vertices states.now.dims) }
    requires below { AreBelow (length (vertices states.now.dims)) later.now }
    ensures { result ≡ true → HaveSign states.now.states own later.now sign }
{
    states.has_sign(own, sign)
        && states.has_sign(later.seventh, sign)
        && states.has_sign(later.first, sign)
        && states.has_sign(later.second, sign)
        && states.has_sign(later.third, sign)
        && states.has_sign(later.fourth, sign)
        && states.has_sign(later.fifth, sign)
        && states.has_sign(later.sixth, sign)
}
