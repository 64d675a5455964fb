ghost use Rattle.std.specs.Prelude.{◌≡◌, ◌≢◌, ◌≤◌, length, true, Err, OnOk, OnErr, IsErrOf};
ghost use Rattle.std.specs.Io.KnownBytes.{Appends};
ghost use Rattle.adjacency.specs.Laws.{NodesDiffer, ShareByTwo};
ghost use Rattle.adjacency.specs.Neighbours.{neighbours};
ghost use Rattle.adjacency.specs.Texts.{face_text};
ghost use Rattle.definitions.specs.Soundness.{boundary};
ghost use Rattle.st_base.specs.Causes.{Rose};
ghost use Rattle.st_base.specs.Desk.{AppendsPart};
ghost use Rattle.st_base.specs.Frames.{OnlyPort};

use crate::held::{first_line, put_piece};
use crate::triangles::{add_open, boundary_count};
use node_ele_write::{Line, PutFault, WriteFault, put_all};
use st_base::{Desk, Port};
use std::alloc::Global;

/// Writes the text of a .face file to an open port: all of it, or some first bytes of it before a fault. It has the
/// boundary triangles of tetrahedra whose neighbours are known, and numbers from `numbering` on.
pub fn put_faces<D: Desk>(
    alloc: Global,
    desk: &mut D,
    port: Port,
    tets: &[[u32; 4]],
    across: &[[Option<u32>; 4]],
    numbering: u32,
) -> Result<(), PutFault>
    requires is_open { (D.ports desk.old port).is_open ≡ true }
    requires differ { NodesDiffer tets.now }
    requires by_two { ShareByTwo tets.now }
    requires across { across.now ≡ neighbours tets.now }
    requires few { length tets.now ≤ 33554432 }
    requires numbering { numbering ≤ 1 }
    ensures all { OnOk result (Appends (D.ports desk.old port).text (D.ports desk.new port).text (face_text numbering (boundary tets.now))) }
    ensures part { OnErr result (AppendsPart (D.ports desk.old port).text (D.ports desk.new port).text (face_text numbering (boundary tets.now))) }
    ensures fault { IsErrOf result PutFault.WriteFault → Rose (D.ports desk.old port).faults (D.ports desk.new port).faults }
    ensures none { result ≢ Err PutFault.WriteFault → (D.ports desk.new port).faults ≡ (D.ports desk.old port).faults }
    ensures is_open { (D.ports desk.new port).is_open ≡ true }
    ensures name { (D.ports desk.new port).name ≡ (D.ports desk.old port).name }
    ensures apart { OnlyPort D.Desk port desk.old desk.new }
{
    let Ok(mut held) = first_line(alloc, boundary_count(tets, across), b" 0\n") else {
        return Err(PutFault::NoMemory);
    };
    let mut line = Line::new();
    let mut number = u64::from(numbering);
    for place in 0..tets.len() {
        let Ok(next) = add_open(
            &mut held,
            &mut line,
            number,
            tets[place],
            across[place],
            numbering,
        ) else {
            return Err(PutFault::NoMemory);
        };
        number = next;
        match put_piece(desk, port, &mut held) {
            Ok(()) => {}
            Err(WriteFault) => return Err(PutFault::WriteFault),
        }
    }
    match put_all(desk, port, &held) {
        Ok(()) => Ok(()),
        Err(WriteFault) => Err(PutFault::WriteFault),
    }
}
