ghost use Rattle.std.specs.Prelude.{◌≡◌, ◌≢◌, ◌∷◌, [], ◌<◌, ◌≤◌, length, true, Err, IfOk, OnErr, IsErrOf, MatchOption};
ghost use Rattle.std.specs.Io.KnownBytes.{Consumes, IsAtEnd, Keeps};
ghost use Rattle.st_base.specs.Causes.{HasCause, Rose};
ghost use Rattle.st_base.specs.Frames.{OnlyInput};
ghost use Rattle.mha_read.specs.Lines.{TakesLine, HasNoNewline};

use st_base::{Desk, Failed};

/// Why a line was not read.
#[derive(Clone, Copy, Debug, PartialEq, Eq)]
pub enum LineFault {
    ReadFault,
    NoMemory,
}

// Reads a byte; none where the input is at its end.
fn read_byte<D: Desk>(desk: &mut D) -> Result<Option<u8>, Failed>
    requires { (D.input desk.old).is_open ≡ true }
    ensures byte { IfOk result (λ byte. MatchOption byte (IsAtEnd (D.input desk.new).left × Consumes (D.input desk.old).left (D.input desk.new).left [])
        (λ b. Consumes (D.input desk.old).left (D.input desk.new).left (b ∷ []))) }
    ensures part { OnErr result (Keeps (D.input desk.old).left (D.input desk.new).left) }
    ensures cause { HasCause (D.input desk.old).faults (D.input desk.new).faults result }
    ensures is_open { (D.input desk.new).is_open ≡ true }
    ensures apart { OnlyInput D.Desk desk.old desk.new }
{
    let mut byte = [0u8];
    match desk.read(&mut byte) {
        Ok(0) => Ok(None),
        Ok(_) => Ok(Some(byte[0])),
        Err(Failed) => Err(Failed),
    }
}

/// Reads a line of at most so many bytes, its newline among them, a byte at a time, and leaves its
/// text in `line`. False: there is no newline in these bytes.
pub fn read_line<D: Desk>(
    desk: &mut D,
    line: &mut Vec<u8>,
    budget: usize,
) -> Result<bool, LineFault>
    requires { (D.input desk.old).is_open ≡ true }
    ensures line { IfOk result (λ found.
        TakesLine (D.input desk.old).left (D.input desk.new).left line.new.items budget found) }
    ensures fault { IsErrOf result LineFault.ReadFault →
        Rose (D.input desk.old).faults (D.input desk.new).faults }
    ensures none { result ≢ Err LineFault.ReadFault →
        (D.input desk.new).faults ≡ (D.input desk.old).faults }
    ensures part { IsErrOf result LineFault.ReadFault →
        Consumes (D.input desk.old).left (D.input desk.new).left line.new.items
        × HasNoNewline line.new.items × (length line.new.items < budget) }
    ensures later { (D.input desk.old).faults ≤ (D.input desk.new).faults }
    ensures is_open { (D.input desk.new).is_open ≡ true }
    ensures apart { OnlyInput D.Desk desk.old desk.new }
{
    line.clear();
    for _ in 0..budget {
        match read_byte(desk) {
            Ok(Some(b'\n')) => return Ok(true),
            Ok(Some(byte)) => {
                if line.push(byte).is_err() {
                    return Err(LineFault::NoMemory);
                }
            }
            Ok(None) => return Ok(false),
            Err(Failed) => return Err(LineFault::ReadFault),
        }
    }
    Ok(false)
}
