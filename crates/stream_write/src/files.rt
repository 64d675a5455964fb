ghost use Rattle.std.specs.Prelude.{◌≡◌, ◌≤◌, All, true, IfOk};
ghost use Rattle.definitions.specs.Angles.{angles, extremes_of};
ghost use Rattle.mesh_texts.specs.Files.{node_text, ele_text};
ghost use Rattle.mesh_texts.specs.Nodes.{nodes_of};
ghost use Rattle.node_ele_write.specs.Printable.{IsPrintable};
ghost use Rattle.mesh_lists.specs.Parts.{mesh_of};
ghost use Rattle.slab_emit.specs.Sources.{CanPrint};
ghost use Rattle.mesh_rounds.specs.Puts.{PutsText};
ghost use Rattle.mesh_rounds.specs.Rounds.{all_extremes, file_text};

use crate::lines::stream_lines;
use dihedral::Extremes;
use mesh_rounds::put_first_line;
use node_ele_write::PutFault;
use slab_emit::{Lines, Source};
use st_base::{Desk, Frame, Gate, Port};
use std::alloc::Global;
use std::thread::Threads;

// Writes the file that these lines stand in: all of it, or some first bytes of it before a fault; and tells the extremes
// of the angles where these are the lines of tetrahedra.
fn stream_file<D: Desk + Send, G: Gate + Sync, R: Threads + Sync>(
    rt: &R,
    alloc: Global,
    desk: &mut D,
    port: Port,
    source: &Source,
    lines: Lines,
    workers: u32,
    gate: &G,
) -> Result<Option<Extremes>, PutFault>
    requires is_open { (D.ports desk.old port).is_open ≡ true }
    requires low { 1 ≤ workers }
    requires high { workers ≤ 64 }
    requires printable { CanPrint lines source.now }
    ensures puts { PutsText D.Desk port desk.old desk.new (file_text lines source.now) result }
    ensures found { IfOk result (λ found. found ≡ all_extremes lines source.now) }
{
    match put_first_line(alloc, desk, port, source, lines) {
        Ok(()) => {}
        Err(fault) => return Err(fault),
    }
    stream_lines(rt, alloc, desk, port, source, lines, workers, gate)
}

/// Writes the text of a .node file to an open port: all of it, or some first bytes of it before a fault. One round is
/// written while the workers make the next.
pub fn stream_nodes<D: Desk + Send, G: Gate + Sync, R: Threads + Sync>(
    rt: &R,
    alloc: Global,
    desk: &mut D,
    port: Port,
    source: &Source,
    frame: Frame,
    numbering: u32,
    workers: u32,
    gate: &G,
) -> Result<(), PutFault>
    requires is_open { (D.ports desk.old port).is_open ≡ true }
    requires numbering { numbering ≤ 1 }
    requires printable { All (IsPrintable frame) (mesh_of source.now.field source.now.states).places }
    requires some_workers { 1 ≤ workers }
    requires most_workers { workers ≤ 64 }
    ensures { PutsText D.Desk port desk.old desk.new (node_text frame numbering (nodes_of source.now.field source.now.states)) result }
{
    let lines = Lines::Nodes { frame, numbering };
    stream_file(rt, alloc, desk, port, source, lines, workers, gate)?;
    Ok(())
}

/// Writes the text of an .ele file to an open port likewise; and tells the extremes of the tetrahedra's angles.
pub fn stream_tets<D: Desk + Send, G: Gate + Sync, R: Threads + Sync>(
    rt: &R,
    alloc: Global,
    desk: &mut D,
    port: Port,
    source: &Source,
    numbering: u32,
    workers: u32,
    gate: &G,
) -> Result<Option<Extremes>, PutFault>
    requires is_open { (D.ports desk.old port).is_open ≡ true }
    requires numbering { numbering ≤ 1 }
    requires some_workers { 1 ≤ workers }
    requires most_workers { workers ≤ 64 }
    ensures puts { PutsText D.Desk port desk.old desk.new (ele_text numbering (mesh_of source.now.field source.now.states).tets) result }
    ensures extremes { IfOk result (λ e. e ≡ extremes_of (angles (mesh_of source.now.field source.now.states))) }
{
    let lines = Lines::Tets { numbering };
    stream_file(rt, alloc, desk, port, source, lines, workers, gate)
}
