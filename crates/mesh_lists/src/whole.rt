ghost use Rattle.std.specs.Prelude.{◌≡◌, ◌+◌, ◌*◌, ◌<◌, ◌^◌, ◌++◌, true, length, IfSome, OnOk};
ghost use Rattle.definitions.specs.Lattice.{InDomain, id as id_of, vertices};
ghost use Rattle.definitions.specs.Mesh.{ArePadded};
ghost use Rattle.mesh_lists.specs.Layers.{AreFrom, NumbersLayers};
ghost use Rattle.mesh_lists.specs.Parts.{AreNumbers, ArePlusNodes, IsWhole, numbered_from, whole_tets};
ghost use Rattle.vertex_numbers.specs.Later.{AreBelow};
ghost use Rattle.vertex_numbers.specs.Numbering.{number_in};

use definitions::Sign;
use snap_rule::States;
use st_base::{NoMemory, Vertex};
use vertex_numbers::{Later, Starts, have_sign, later_ids};

/// The numbers of the vertices with these ids, where they are nodes.
#[inline(always)]
fn numbers_at(starts: &Starts, ids: &Later) -> Later
    requires low { AreFrom starts.now.first ids.now }
    requires high { AreBelow (starts.now.first + starts.now.len) ids.now }
    ensures { AreNumbers starts.now ids.now result }
{
    Later {
        first: starts.vertex_number(ids.first),
        second: starts.vertex_number(ids.second),
        third: starts.vertex_number(ids.third),
        fourth: starts.vertex_number(ids.fourth),
        fifth: starts.vertex_number(ids.fifth),
        sixth: starts.vertex_number(ids.sixth),
        seventh: starts.vertex_number(ids.seventh),
    }
}

/// The numbers of a vertex and of its neighbours upwards, where all are Plus.
#[derive(Clone, Copy)]
pub struct Whole {
    pub own: u32,
    pub later: Later,
}

/// The six lattice tetrahedra at a vertex, by the numbers of this vertex and of its neighbours upwards.
#[inline(always)]
pub fn six_tets(whole: &Whole) -> [[u32; 4]; 6]
    ensures { result ≡ whole_tets whole.now.own whole.now.later }
{
    let own = whole.own;
    let later = &whole.later;
    [
        [own, later.first, later.sixth, later.fourth],
        [own, later.second, later.fifth, later.sixth],
        [own, later.third, later.fourth, later.seventh],
        [own, later.third, later.seventh, later.fifth],
        [own, later.fourth, later.sixth, later.seventh],
        [own, later.fifth, later.seventh, later.sixth],
    ]
}

/// Puts the six behind others.
#[inline(always)]
pub fn push_six(tets: &mut Vec<[u32; 4]>, whole: &Whole) -> Result<(), NoMemory>
    ensures { OnOk result (tets.new.items ≡ tets.old.items ++ whole_tets whole.now.own whole.now.later) }
{
    match tets.extend_from_slice(&six_tets(whole)) {
        Ok(()) => Ok(()),
        Err(_) => Err(NoMemory),
    }
}

/// The ids of the neighbours upwards of a vertex, if it and they are all Plus: then the six lattice tetrahedra are whole.
#[inline(always)]
fn whole_at(states: &States, v: Vertex, id: u32) -> Option<Later>
    requires padded { ArePadded states.now.dims states.now.states }
    requires domain { InDomain states.now.dims v }
    requires id { id ≡ id_of states.now.dims v }
    ensures { IfSome result (IsWhole states.now.dims states.now.states v) }
{
    let ids = later_ids(states.dims(), v, id)?;
    if have_sign(states, id, &ids, Sign::Plus) {
        Some(ids)
    } else {
        None
    }
}

/// The numbers at a vertex where the six lattice tetrahedra are whole.
#[inline(always)]
fn numbers_of_whole(states: &States, starts: &Starts, v: Vertex, id: u32, ids: &Later) -> Whole
    requires padded { ArePadded states.now.dims states.now.states }
    requires numbers { NumbersLayers states.now.dims states.now.states v.h starts.now }
    requires domain { InDomain states.now.dims v }
    requires id { id ≡ id_of states.now.dims v }
    requires whole { IsWhole states.now.dims states.now.states v ids.now }
    ensures plus { ArePlusNodes states.now.dims states.now.states v result.own result.later }
    ensures pieces { numbered_from states.now.dims states.now.states v ≡ whole_tets result.own result.later }
{
    let own = starts.vertex_number(id);
    let later = numbers_at(starts, ids);
    Whole { own, later }
}

/// The numbers at a vertex, if it and its neighbours upwards are all Plus: then the six lattice tetrahedra are whole,
/// and are all the pieces of which it is the lowest vertex.
#[inline(always)]
pub fn whole_numbers(states: &States, starts: &Starts, v: Vertex, id: u32) -> Option<Whole>
    requires padded { ArePadded states.now.dims states.now.states }
    requires numbers { NumbersLayers states.now.dims states.now.states v.h starts.now }
    requires domain { InDomain states.now.dims v }
    requires id { id ≡ id_of states.now.dims v }
    ensures plus { IfSome result (λ w. ArePlusNodes states.now.dims states.now.states v w.own w.later) }
    ensures pieces { IfSome result (λ w. numbered_from states.now.dims states.now.states v ≡ whole_tets w.own w.later) }
{
    match whole_at(states, v, id) {
        Some(ids) => Some(numbers_of_whole(states, starts, v, id, &ids)),
        None => None,
    }
}
