ghost use Rattle.std.specs.Prelude.{◌≡◌, ℕ, List, true, IfErr, IfOk, Ok};
ghost use Rattle.st_base.specs.Desk.{PortState};
ghost use Rattle.st_base.specs.Frames.{OnlyPort};
ghost use Rattle.stuff.specs.Ports.{IsAtOutput};
ghost use Rattle.stuff.specs.Writing.{HasPut, Puts};

use node_ele_write::PutFault;
use st_base::{Desk, Failed, Port, Status};

/// Finishes a file that was written, or tells why it was not.
pub fn finished<D: Desk, T: Copy>(
    desk: &mut D,
    port: Port,
    put: Result<T, PutFault>,
) -> Result<T, Status>
    requires { (D.ports desk.old port).is_open ≡ true }
    ensures kind { IfErr result IsAtOutput }
    ensures puts { (before : PortState) (text : List ℕ) → HasPut put before (D.ports desk.old port) text → Puts result port before (D.ports desk.new port) text }
    ensures value { IfOk result (λ x. put ≡ Ok x) }
    ensures apart { OnlyPort D.Desk port desk.old desk.new }
{
    let value = match put {
        Ok(value) => value,
        Err(PutFault::WriteFault) => return Err(Status::WriteFault { port }),
        Err(PutFault::NoMemory) => return Err(Status::NoMemory),
    };
    match desk.finish(port) {
        Ok(()) => Ok(value),
        Err(Failed) => Err(Status::WriteFault { port }),
    }
}
