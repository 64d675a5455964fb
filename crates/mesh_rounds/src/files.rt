ghost use Rattle.std.specs.Prelude.{◌≡◌, ◌≤◌, ◌++◌, List, ℕ, All, decimal, true, IfOk};
ghost use Rattle.definitions.specs.Angles.{angles, extremes_of};
ghost use Rattle.mesh_texts.specs.Files.{node_text, ele_text};
ghost use Rattle.mesh_texts.specs.Nodes.{nodes_of};
ghost use Rattle.node_ele_write.specs.Printable.{IsPrintable};
ghost use Rattle.mesh_lists.specs.Parts.{mesh_of};
ghost use Rattle.slab_emit.specs.Sources.{CanPrint};
ghost use Rattle.mesh_rounds.specs.Puts.{PutsText};
ghost use Rattle.mesh_rounds.specs.Rounds.{all_extremes, file_text, first_line};

use crate::lines::put_lines;
use dihedral::Extremes;
use itoa::Buffer;
use node_ele_write::{PutFault, WriteFault, put_all};
use slab_emit::{Lines, Source};
use st_base::{Desk, Frame, Gate, Port};
use std::alloc::{AllocError, Global};
use std::thread::Threads;

// The first line of a file: a count and some more.
fn head(alloc: Global, count: u64, more: &[u8]) -> Result<Vec<u8>, AllocError>
    ensures { IfOk result (λ text. text.items ≡ decimal count ++ more.now) }
{
    let mut buffer = Buffer::new();
    let mut text = Vec::new(alloc);
    text.extend_from_slice(buffer.format(count).as_bytes())?;
    text.extend_from_slice(more)?;
    Ok(text)
}

// Writes all the bytes, or some first bytes of them before a fault.
fn put_text<D: Desk>(desk: &mut D, port: Port, bytes: &[u8]) -> Result<(), PutFault>
    requires { (D.ports desk.old port).is_open ≡ true }
    ensures { PutsText D.Desk port desk.old desk.new bytes.now result }
{
    match put_all(desk, port, bytes) {
        Ok(()) => Ok(()),
        Err(WriteFault) => Err(PutFault::WriteFault),
    }
}

/// Writes the first line of the file that these lines stand in to an open port, or some first bytes of it before a fault.
pub fn put_first_line<D: Desk>(
    alloc: Global,
    desk: &mut D,
    port: Port,
    source: &Source,
    lines: Lines,
) -> Result<(), PutFault>
    requires { (D.ports desk.old port).is_open ≡ true }
    ensures { PutsText D.Desk port desk.old desk.new (first_line lines source.now) result }
{
    let text = match lines {
        Lines::Nodes { .. } => head(alloc, u64::from(source.nodes()), b" 3 0 1\n"),
        Lines::Tets { .. } => head(alloc, source.tets(), b" 4 0\n"),
        Lines::Angles => Ok(Vec::new(alloc)),
    };
    match text {
        Ok(text) => put_text(desk, port, &text),
        Err(_) => Err(PutFault::NoMemory),
    }
}

// Writes the file that these lines stand in: all of it, or some first bytes of it before a fault; and tells the extremes
// of the angles where these are the lines of tetrahedra.
fn put_file<D: Desk, G: Gate + Sync, R: Threads + Sync>(
    rt: &R,
    alloc: Global,
    desk: &mut D,
    port: Port,
    source: &Source,
    lines: Lines,
    workers: u32,
    gate: &G,
) -> Result<Option<Extremes>, PutFault>
    requires is_open { (D.ports desk.old port).is_open ≡ true }
    requires low { 1 ≤ workers }
    requires high { workers ≤ 64 }
    requires printable { CanPrint lines source.now }
    ensures puts { PutsText D.Desk port desk.old desk.new (file_text lines source.now) result }
    ensures found { IfOk result (λ found. found ≡ all_extremes lines source.now) }
{
    match put_first_line(alloc, desk, port, source, lines) {
        Ok(()) => {}
        Err(fault) => return Err(fault),
    }
    put_lines(rt, alloc, desk, port, source, lines, workers, gate)
}

/// Writes the text of a .node file to an open port: all of it, or some first bytes of it before a fault.
pub fn put_nodes<D: Desk, G: Gate + Sync, R: Threads + Sync>(
    rt: &R,
    alloc: Global,
    desk: &mut D,
    port: Port,
    source: &Source,
    frame: Frame,
    numbering: u32,
    workers: u32,
    gate: &G,
) -> Result<(), PutFault>
    requires is_open { (D.ports desk.old port).is_open ≡ true }
    requires numbering { numbering ≤ 1 }
    requires printable { All (IsPrintable frame) (mesh_of source.now.field source.now.states).places }
    requires some_workers { 1 ≤ workers }
    requires most_workers { workers ≤ 64 }
    ensures { PutsText D.Desk port desk.old desk.new (node_text frame numbering (nodes_of source.now.field source.now.states)) result }
{
    let lines = Lines::Nodes { frame, numbering };
    put_file(rt, alloc, desk, port, source, lines, workers, gate)?;
    Ok(())
}

/// Writes the text of an .ele file to an open port: all of it, or some first bytes of it before a fault; and tells the
/// extremes of the tetrahedra's angles.
pub fn put_tets<D: Desk, G: Gate + Sync, R: Threads + Sync>(
    rt: &R,
    alloc: Global,
    desk: &mut D,
    port: Port,
    source: &Source,
    numbering: u32,
    workers: u32,
    gate: &G,
) -> Result<Option<Extremes>, PutFault>
    requires is_open { (D.ports desk.old port).is_open ≡ true }
    requires numbering { numbering ≤ 1 }
    requires some_workers { 1 ≤ workers }
    requires most_workers { workers ≤ 64 }
    ensures puts { PutsText D.Desk port desk.old desk.new (ele_text numbering (mesh_of source.now.field source.now.states).tets) result }
    ensures extremes { IfOk result (λ e. e ≡ extremes_of (angles (mesh_of source.now.field source.now.states))) }
{
    let lines = Lines::Tets { numbering };
    put_file(rt, alloc, desk, port, source, lines, workers, gate)
}
