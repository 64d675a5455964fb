ghost use Rattle.std.specs.Prelude.{◌≡◌, true, OnOk, OnErr};
ghost use Rattle.std.specs.Io.KnownBytes.{Appends};
ghost use Rattle.st_base.specs.Causes.{HasCause};
ghost use Rattle.st_base.specs.Desk.{AppendsPart};
ghost use Rattle.st_base.specs.Frames.{OnlyPort};

use st_base::{Desk, Failed, Port};

/// A port did not take all bytes.
#[derive(Clone, Copy, Debug, PartialEq, Eq)]
pub struct WriteFault;

/// Writes all the bytes to an open port, or some first bytes of them before a fault.
pub fn put_all<D: Desk>(desk: &mut D, port: Port, bytes: &[u8]) -> Result<(), WriteFault>
    requires { (D.ports desk.old port).is_open ≡ true }
    ensures all { OnOk result (Appends (D.ports desk.old port).text (D.ports desk.new port).text bytes.now) }
    ensures part { OnErr result (AppendsPart (D.ports desk.old port).text (D.ports desk.new port).text bytes.now) }
    ensures cause { HasCause (D.ports desk.old port).faults (D.ports desk.new port).faults result }
    ensures is_open { (D.ports desk.new port).is_open ≡ true }
    ensures name { (D.ports desk.new port).name ≡ (D.ports desk.old port).name }
    ensures apart { OnlyPort D.Desk port desk.old desk.new }
{
    let mut from = 0usize;
    for _ in 0..bytes.len() {
        if from >= bytes.len() {
            return Ok(());
        }
        match desk.write(port, &bytes[from..]) {
            Ok(count) => from += count,
            Err(Failed) => return Err(WriteFault),
        }
    }
    Ok(())
}
