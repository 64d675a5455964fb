ghost use Rattle.std.specs.Prelude.{◌≡◌, ◌≤◌, true, OnOk, IfOk};
ghost use Rattle.std.specs.Io.KnownBytes.{Appends};
ghost use Rattle.slab_emit.specs.Sources.{CanPrint};
ghost use Rattle.mesh_rounds.specs.Puts.{PutsText};
ghost use Rattle.mesh_rounds.specs.Rounds.{all_extremes, all_lines};
ghost use Rattle.slab_work.specs.Rounds.{lines_of_rounds};

use crate::beside::write_beside;
use dihedral::Extremes;
use mesh_rounds::{Reached, next_round, put_parts};
use node_ele_write::PutFault;
use slab_emit::{Crew, Lines, Source};
use st_base::{Desk, Gate, Port};
use std::alloc::Global;
use std::thread::Threads;

/// Writes the lines of all slabs to an open port, each round while the next is made, or some first bytes of them before
/// a fault; and gives the extremes of the angles where these are the lines of tetrahedra.
pub fn stream_lines<D: Desk + Send, G: Gate + Sync, R: Threads + Sync>(
    rt: &R,
    alloc: Global,
    desk: &mut D,
    port: Port,
    source: &Source,
    lines: Lines,
    workers: u32,
    gate: &G,
) -> Result<Option<Extremes>, PutFault>
    requires is_open { (D.ports desk.old port).is_open ≡ true }
    requires low { 1 ≤ workers }
    requires high { workers ≤ 64 }
    requires printable { CanPrint lines source.now }
    ensures puts { PutsText D.Desk port desk.old desk.new (all_lines lines source.now) result }
    ensures rounds { OnOk result (Appends (D.ports desk.old port).text (D.ports desk.new port).text (lines_of_rounds lines source.now workers)) }
    ensures found { IfOk result (λ found. found ≡ all_extremes lines source.now) }
{
    let slabs = source.slabs();
    let mut crew = Crew::new(alloc, workers);
    let mut reached = Reached {
        first: 0,
        found: None,
    };
    let Ok(mut parts) = next_round(rt, alloc, source, lines, &mut crew, gate, &mut reached) else {
        return Err(PutFault::NoMemory);
    };
    while reached.first < slabs {
        let next = write_beside(
            rt,
            alloc,
            desk,
            port,
            &parts,
            source,
            lines,
            &mut crew,
            gate,
            &mut reached,
        )?;
        crew.hand_back(parts);
        parts = next;
    }
    put_parts(desk, port, &parts)?;
    Ok(reached.found)
}
