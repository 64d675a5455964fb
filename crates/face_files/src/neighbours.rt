ghost use Rattle.std.specs.Prelude.{◌≡◌, ◌≢◌, ◌≤◌, ◌+◌, ◌++◌, length, map, true, Err, OnOk, OnErr, IsErrOf};
ghost use Rattle.std.specs.Option.{option_map};
ghost use Rattle.std.specs.Io.KnownBytes.{Appends};
ghost use Rattle.adjacency.specs.Texts.{neigh_line, neigh_text};
ghost use Rattle.st_base.specs.Causes.{Rose};
ghost use Rattle.st_base.specs.Desk.{AppendsPart};
ghost use Rattle.st_base.specs.Frames.{OnlyPort};

use crate::held::{first_line, put_piece};
use face_neigh::fill_neigh_line;
use node_ele_write::{Line, PutFault, WriteFault, put_all};
use st_base::{Desk, NoMemory, Port};
use std::alloc::Global;

// Appends the line of a tetrahedron's neighbours.
fn add_neighbours(
    out: &mut Vec<u8>,
    line: &mut Line,
    number: u64,
    across: [Option<u32>; 4],
    first: u32,
) -> Result<(), NoMemory>
    ensures { OnOk result (out.new.items ≡ out.old.items ++ neigh_line (number, map (option_map (λ n. first + n)) across)) }
{
    fill_neigh_line(line, number, across, first);
    line.append_to(out)
}

/// Writes the text of a .neigh file to an open port: all of it, or some first bytes of it before a fault. It has the
/// neighbours of each tetrahedron, and numbers from `numbering` on.
pub fn put_neighbours<D: Desk>(
    alloc: Global,
    desk: &mut D,
    port: Port,
    across: &[[Option<u32>; 4]],
    numbering: u32,
) -> Result<(), PutFault>
    requires is_open { (D.ports desk.old port).is_open ≡ true }
    requires few { length across.now ≤ 33554432 }
    requires numbering { numbering ≤ 1 }
    ensures all { OnOk result (Appends (D.ports desk.old port).text (D.ports desk.new port).text (neigh_text numbering across.now)) }
    ensures part { OnErr result (AppendsPart (D.ports desk.old port).text (D.ports desk.new port).text (neigh_text numbering across.now)) }
    ensures fault { IsErrOf result PutFault.WriteFault → Rose (D.ports desk.old port).faults (D.ports desk.new port).faults }
    ensures none { result ≢ Err PutFault.WriteFault → (D.ports desk.new port).faults ≡ (D.ports desk.old port).faults }
    ensures is_open { (D.ports desk.new port).is_open ≡ true }
    ensures name { (D.ports desk.new port).name ≡ (D.ports desk.old port).name }
    ensures apart { OnlyPort D.Desk port desk.old desk.new }
{
    let Ok(mut held) = first_line(alloc, across.len() as u64, b" 4\n") else {
        return Err(PutFault::NoMemory);
    };
    let mut line = Line::new();
    for place in 0..across.len() {
        let number = u64::from(numbering) + place as u64;
        let Ok(()) = add_neighbours(&mut held, &mut line, number, across[place], numbering) else {
            return Err(PutFault::NoMemory);
        };
        match put_piece(desk, port, &mut held) {
            Ok(()) => {}
            Err(WriteFault) => return Err(PutFault::WriteFault),
        }
    }
    match put_all(desk, port, &held) {
        Ok(()) => Ok(()),
        Err(WriteFault) => Err(PutFault::WriteFault),
    }
}
