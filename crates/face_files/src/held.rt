ghost use Rattle.std.specs.Prelude.{◌≡◌, ◌++◌, ℕ, List, Option, codes, decimal, true, IfOk, OnOk, OnErr};
ghost use Rattle.std.specs.Io.KnownBytes.{Appends};
ghost use Rattle.st_base.specs.Causes.{HasCause};
ghost use Rattle.st_base.specs.Desk.{AppendsPart};
ghost use Rattle.st_base.specs.Frames.{OnlyPort};
ghost use Rattle.face_files.specs.Held.{AppendsAllButHeld};

use node_ele_write::{WriteFault, add, put_all};
use st_base::{Desk, NoMemory, Port};
use std::alloc::Global;

/// As many bytes are held before they are written, or a line more.
const PIECE: usize = 1 << 20;

/// Room for a piece, with the first line of a file in it: a count and some more.
pub fn first_line(alloc: Global, count: u64, more: &[u8]) -> Result<Vec<u8>, NoMemory>
    ensures { IfOk result (λ held. held.items ≡ decimal count ++ more.now) }
{
    let Ok(mut held) = Vec::with_capacity(alloc, PIECE + 256) else {
        return Err(NoMemory);
    };
    add(&mut held, b"", count, more)?;
    Ok(held)
}

/// Writes what is held, and holds nothing any more.
fn put_held<D: Desk>(desk: &mut D, port: Port, held: &mut Vec<u8>) -> Result<(), WriteFault>
    requires { (D.ports desk.old port).is_open ≡ true }
    ensures all { (before : Option (List ℕ)) (all : List ℕ) → AppendsAllButHeld before (D.ports desk.old port).text held.old.items all → OnOk result (AppendsAllButHeld before (D.ports desk.new port).text held.new.items all) }
    ensures part { (before : Option (List ℕ)) (all : List ℕ) → AppendsAllButHeld before (D.ports desk.old port).text held.old.items all → OnErr result (AppendsPart before (D.ports desk.new port).text all) }
    ensures cause { HasCause (D.ports desk.old port).faults (D.ports desk.new port).faults result }
    ensures is_open { (D.ports desk.new port).is_open ≡ true }
    ensures name { (D.ports desk.new port).name ≡ (D.ports desk.old port).name }
    ensures apart { OnlyPort D.Desk port desk.old desk.new }
{
    let done = put_all(desk, port, held);
    held.clear();
    done
}

/// Writes what is held if it is a piece, and holds nothing any more then.
pub fn put_piece<D: Desk>(desk: &mut D, port: Port, held: &mut Vec<u8>) -> Result<(), WriteFault>
    requires { (D.ports desk.old port).is_open ≡ true }
    ensures all { (before : Option (List ℕ)) (all : List ℕ) → AppendsAllButHeld before (D.ports desk.old port).text held.old.items all → OnOk result (AppendsAllButHeld before (D.ports desk.new port).text held.new.items all) }
    ensures part { (before : Option (List ℕ)) (all : List ℕ) → AppendsAllButHeld before (D.ports desk.old port).text held.old.items all → OnErr result (AppendsPart before (D.ports desk.new port).text all) }
    ensures cause { HasCause (D.ports desk.old port).faults (D.ports desk.new port).faults result }
    ensures is_open { (D.ports desk.new port).is_open ≡ true }
    ensures name { (D.ports desk.new port).name ≡ (D.ports desk.old port).name }
    ensures apart { OnlyPort D.Desk port desk.old desk.new }
{
    if held.len() < PIECE {
        return Ok(());
    }
    put_held(desk, port, held)
}
