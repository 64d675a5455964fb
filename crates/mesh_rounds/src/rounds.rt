ghost use Rattle.std.specs.Prelude.{◌≡◌, ◌<◌, ◌≤◌, IfOk};
ghost use Rattle.definitions.specs.Layout.{slabs};
ghost use Rattle.slab_emit.specs.Sources.{CanPrint};
ghost use Rattle.mesh_rounds.specs.Rounds.{IsReached, IsRound, all_extremes};

use crate::folding::fold_parts;
use dihedral::Extremes;
use slab_emit::{Crew, Lines, Part, Source, emit};
use st_base::{Gate, NoMemory};
use std::alloc::Global;
use std::thread::Threads;

/// How far the rounds have come: the slabs before the next one are done, and the extremes of their angles are found.
#[derive(Clone, Copy)]
pub struct Reached {
    pub first: u32,
    pub found: Option<Extremes>,
}

/// The parts of the next round. Their extremes are folded into those that were found.
pub fn next_round<G: Gate + Sync, R: Threads + Sync>(
    rt: &R,
    alloc: Global,
    source: &Source,
    lines: Lines,
    crew: &mut Crew,
    gate: &G,
    reached: &mut Reached,
) -> Result<Vec<Part>, NoMemory>
    requires first { reached.old.first < slabs source.now.field.dims source.now.slab }
    requires crew { 1 ≤ crew.old }
    requires printable { CanPrint lines source.now }
    requires reached { IsReached lines source.now reached.old }
    ensures round { IfOk result (λ ps. IsRound lines source.now reached.old reached.new ps.items) }
    ensures crew { crew.new ≡ crew.old }
{
    let parts = match emit(rt, alloc, source, lines, crew, gate, reached.first) {
        Ok(parts) => parts,
        Err(fault) => return Err(fault),
    };
    reached.found = fold_parts(reached.found, &parts);
    reached.first += parts.len() as u32;
    Ok(parts)
}

/// The extremes of the angles of all tetrahedra. No lines are made.
pub fn extremes<G: Gate + Sync, R: Threads + Sync>(
    rt: &R,
    alloc: Global,
    source: &Source,
    workers: u32,
    gate: &G,
) -> Result<Option<Extremes>, NoMemory>
    requires some_workers { 1 ≤ workers }
    requires most_workers { workers ≤ 64 }
    ensures { IfOk result (λ e. e ≡ all_extremes Lines.Angles source.now) }
{
    let slabs = source.slabs();
    let mut crew = Crew::new(alloc, workers);
    let mut reached = Reached {
        first: 0,
        found: None,
    };
    while reached.first < slabs {
        match next_round(
            rt,
            alloc,
            source,
            Lines::Angles,
            &mut crew,
            gate,
            &mut reached,
        ) {
            Ok(_) => {}
            Err(fault) => return Err(fault),
        }
    }
    Ok(reached.found)
}
