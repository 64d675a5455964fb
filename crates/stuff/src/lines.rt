ghost use Rattle.std.specs.Prelude.{◌≡◌, ◌≤◌, All, true, IfOk};
ghost use Rattle.definitions.specs.Angles.{angles, extremes_of};
ghost use Rattle.mesh_texts.specs.Files.{node_text, ele_text};
ghost use Rattle.mesh_texts.specs.Nodes.{nodes_of};
ghost use Rattle.node_ele_write.specs.Printable.{IsPrintable};
ghost use Rattle.mesh_lists.specs.Parts.{mesh_of};
ghost use Rattle.mesh_rounds.specs.Puts.{PutsText};

use dihedral::Extremes;
use node_ele_write::PutFault;
use slab_emit::Source;
use st_base::{Desk, Frame, Gate, Port};
use std::alloc::Global;
use std::thread::Threads;
use stream_write::{stream_nodes, stream_tets};

/// Writes the text of a .node file to an open port: one round while the next is made, where that is asked for.
pub fn put_nodes<D: Desk + Send, G: Gate + Sync, R: Threads + Sync>(
    rt: &R,
    alloc: Global,
    desk: &mut D,
    port: Port,
    source: &Source,
    frame: Frame,
    numbering: u32,
    streamed: bool,
    workers: u32,
    gate: &G,
) -> Result<(), PutFault>
    requires is_open { (D.ports desk.old port).is_open ≡ true }
    requires numbering { numbering ≤ 1 }
    requires printable { All (IsPrintable frame) (mesh_of source.now.field source.now.states).places }
    requires some_workers { 1 ≤ workers }
    requires most_workers { workers ≤ 64 }
    ensures { PutsText D.Desk port desk.old desk.new (node_text frame numbering (nodes_of source.now.field source.now.states)) result }
{
    if streamed {
        stream_nodes(
            rt, alloc, desk, port, source, frame, numbering, workers, gate,
        )
    } else {
        mesh_rounds::put_nodes(
            rt, alloc, desk, port, source, frame, numbering, workers, gate,
        )
    }
}

/// Writes the text of an .ele file to an open port, and tells the extremes of the tetrahedra's angles: one round is
/// written while the next is made, where that is asked for.
pub fn put_tets<D: Desk + Send, G: Gate + Sync, R: Threads + Sync>(
    rt: &R,
    alloc: Global,
    desk: &mut D,
    port: Port,
    source: &Source,
    numbering: u32,
    streamed: bool,
    workers: u32,
    gate: &G,
) -> Result<Option<Extremes>, PutFault>
    requires is_open { (D.ports desk.old port).is_open ≡ true }
    requires numbering { numbering ≤ 1 }
    requires some_workers { 1 ≤ workers }
    requires most_workers { workers ≤ 64 }
    ensures puts { PutsText D.Desk port desk.old desk.new (ele_text numbering (mesh_of source.now.field source.now.states).tets) result }
    ensures extremes { IfOk result (λ e. e ≡ extremes_of (angles (mesh_of source.now.field source.now.states))) }
{
    if streamed {
        stream_tets(rt, alloc, desk, port, source, numbering, workers, gate)
    } else {
        mesh_rounds::put_tets(rt, alloc, desk, port, source, numbering, workers, gate)
    }
}
