ghost use Rattle.std.specs.Prelude.{◌≡◌, ◌+◌, ◌*◌, ◌^◌, ◌<◌};
ghost use Rattle.definitions.specs.Lattice.{InDomain, IsDims, id as id_of, layers};
ghost use Rattle.lattice_counts.specs.Counts.{row_len};
ghost use Rattle.vertex_numbers.specs.Alike.{HasColumn};
ghost use Rattle.vertex_numbers.specs.Steps.{AreColumnIds, AreSteps, LeadsBy};

use bcc_lattice::{columns, layer_len};
use st_base::{Dims, Vertex};

/// How far the ids of the neighbours upwards of a vertex in directions 2, 3, 5 and 7 stand behind its own. It is as far
/// for each vertex of a row.
#[derive(Clone, Copy)]
pub struct Steps {
    pub second: u32,
    pub third: u32,
    pub fifth: u32,
    pub seventh: u32,
}

/// How far the ids of the neighbours upwards in direction 3 stand behind those of the row at `y` half units along y in
/// layer `h`.
#[inline(always)]
#[tactic(auto, using(crate::proofs::StepIds::layer_holds, lattice_counts::proofs::Sizes::ny_small))]
fn third_step(dims: Dims, h: u32, y: u32) -> u32
    requires sizes { IsDims dims }
    requires row { y < 2 * dims.ny + 3 }
    ensures third { LeadsBy dims h y 3 result }
    ensures fifth { LeadsBy dims h y 5 (result + row_len dims.nx (h + 1)) }
    ensures small { result < 2 ^ 26 }
{
    let len = layer_len(dims, h);
    if h % 2 == 0 {
        len - (columns(dims, h) + y / 2)
    } else {
        len + y / 2
    }
}

/// The steps of the row at `y` half units along y in layer `h`.
#[inline(always)]
#[tactic(auto, using(lattice_counts::proofs::Sizes::nz_small))]
pub fn steps_of(dims: Dims, h: u32, y: u32) -> Steps
    requires sizes { IsDims dims }
    requires layer { h < layers dims }
    requires row { y < 2 * dims.ny + 3 }
    ensures { AreSteps dims h y result }
{
    let third = third_step(dims, h, y);
    Steps {
        second: columns(dims, h),
        third,
        fifth: third + columns(dims, h + 1),
        seventh: layer_len(dims, h) + layer_len(dims, h + 1),
    }
}

/// The ids of the neighbours upwards of a vertex in directions 2, 3, 5 and 7.
#[derive(Clone, Copy)]
pub struct ColumnIds {
    pub second: u32,
    pub third: u32,
    pub fifth: u32,
    pub seventh: u32,
}

/// Those of a vertex with an id, where they are in the domain.
#[inline(always)]
pub fn column_ids(_dims: Dims, _v: Vertex, id: u32, steps: Steps) -> ColumnIds
    requires sizes { IsDims _dims }
    requires domain { InDomain _dims _v }
    requires column { HasColumn _dims _v }
    requires id { id ≡ id_of _dims _v }
    requires steps { AreSteps _dims _v.h _v.y steps }
    ensures { AreColumnIds _dims _v result }
{
    ColumnIds {
        second: id + steps.second,
        third: id + steps.third,
        fifth: id + steps.fifth,
        seventh: id + steps.seventh,
    }
}
