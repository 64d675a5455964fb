ghost use Rattle.std.specs.Prelude.{◌≡◌, ◌≢◌, ◌≤◌, true, Err, IfOk};
ghost use Rattle.slab_emit.specs.Sources.{CanPrint};
ghost use Rattle.mesh_rounds.specs.Puts.{PutsText};
ghost use Rattle.mesh_rounds.specs.Rounds.{all_extremes, all_lines, text_of};

use crate::rounds::{Reached, next_round};
use dihedral::Extremes;
use node_ele_write::{PutFault, WriteFault, put_all};
use slab_emit::{Crew, Lines, Part, Source};
use st_base::{Desk, Gate, Port};
use std::alloc::Global;
use std::thread::Threads;

/// Writes the texts of parts to an open port, one after another, or some first bytes of them before a fault.
pub fn put_parts<D: Desk>(desk: &mut D, port: Port, parts: &[Part]) -> Result<(), PutFault>
    requires is_open { (D.ports desk.old port).is_open ≡ true }
    ensures puts { PutsText D.Desk port desk.old desk.new (text_of parts.now) result }
    ensures memory { result ≢ Err PutFault.NoMemory }
{
    for n in 0..parts.len() {
        let part = &parts[n];
        match put_all(desk, port, &part.text) {
            Ok(()) => {}
            Err(WriteFault) => return Err(PutFault::WriteFault),
        }
    }
    Ok(())
}

/// Writes the lines of all slabs to an open port, each round before the next is made, or some first bytes of them before
/// a fault; and gives the extremes of the angles where these are the lines of tetrahedra.
pub fn put_lines<D: Desk, G: Gate + Sync, R: Threads + Sync>(
    rt: &R,
    alloc: Global,
    desk: &mut D,
    port: Port,
    source: &Source,
    lines: Lines,
    workers: u32,
    gate: &G,
) -> Result<Option<Extremes>, PutFault>
    requires is_open { (D.ports desk.old port).is_open ≡ true }
    requires low { 1 ≤ workers }
    requires high { workers ≤ 64 }
    requires printable { CanPrint lines source.now }
    ensures puts { PutsText D.Desk port desk.old desk.new (all_lines lines source.now) result }
    ensures found { IfOk result (λ found. found ≡ all_extremes lines source.now) }
{
    let slabs = source.slabs();
    let mut crew = Crew::new(alloc, workers);
    let mut reached = Reached {
        first: 0,
        found: None,
    };
    while reached.first < slabs {
        let Ok(parts) = next_round(rt, alloc, source, lines, &mut crew, gate, &mut reached) else {
            return Err(PutFault::NoMemory);
        };
        put_parts(desk, port, &parts)?;
        crew.hand_back(parts);
    }
    Ok(reached.found)
}
