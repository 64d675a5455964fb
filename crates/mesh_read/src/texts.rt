ghost use Rattle.std.specs.Prelude.{◌≡◌, ◌≢◌, ◌<◌, ◌≤◌, ◌^◌, length, take, true, Err, IfOk, IsErrOf, OnErr};
ghost use Rattle.std.specs.Io.KnownBytes.{Consumes, IsAtEnd, Keeps};
ghost use Rattle.st_base.specs.Causes.{Rose, HasCause};
ghost use Rattle.st_base.specs.Frames.{OnlyInput};
ghost use Rattle.mesh_read.specs.Told.{ReadsText};

use st_base::{Desk, Failed, MeshFault};
use std::alloc::Global;

// The most bytes that a text has.
const LIMIT: usize = 1_073_741_824;

// How many bytes are read at once, at most.
const PART: usize = 65536;

// Reads into the first places of a buffer.
fn read_part<D: Desk>(desk: &mut D, buffer: &mut [u8], most: usize) -> Result<usize, Failed>
    requires is_open { (D.input desk.old).is_open ≡ true }
    requires some { 0 < most }
    requires room { most ≤ length buffer.old }
    ensures within { IfOk result (λ n. n ≤ most) }
    ensures bytes { IfOk result (λ n. Consumes (D.input desk.old).left (D.input desk.new).left (take n buffer.new)) }
    ensures ends { IfOk result (λ n. n ≡ 0 → IsAtEnd (D.input desk.new).left) }
    ensures part { OnErr result (Keeps (D.input desk.old).left (D.input desk.new).left) }
    ensures cause { HasCause (D.input desk.old).faults (D.input desk.new).faults result }
    ensures is_open { (D.input desk.new).is_open ≡ true }
    ensures apart { OnlyInput D.Desk desk.old desk.new }
{
    desk.read(&mut buffer[..most])
}

/// Reads the open input to its end, or to one byte past the greatest length of a text.
pub fn read_text<D: Desk>(alloc: Global, desk: &mut D) -> Result<Vec<u8>, MeshFault>
    requires { (D.input desk.old).is_open ≡ true }
    ensures text { ReadsText (D.input desk.old).left (D.input desk.new).left result }
    ensures within { IfOk result (λ v. length v.items ≤ 2 ^ 30) }
    ensures fault { IsErrOf result MeshFault.ReadFault → Rose (D.input desk.old).faults (D.input desk.new).faults }
    ensures none { result ≢ Err MeshFault.ReadFault → (D.input desk.new).faults ≡ (D.input desk.old).faults }
    ensures later { (D.input desk.old).faults ≤ (D.input desk.new).faults }
    ensures is_open { (D.input desk.new).is_open ≡ true }
    ensures apart { OnlyInput D.Desk desk.old desk.new }
{
    let mut text = Vec::new(alloc);
    let mut buffer = [0u8; PART];
    for _ in 0..LIMIT + 1 {
        if text.len() > LIMIT {
            return Err(MeshFault::TooLong);
        }
        let most = PART.min(LIMIT + 1 - text.len());
        match read_part(desk, &mut buffer, most) {
            Ok(0) => return Ok(text),
            Ok(count) => {
                if text.extend_from_slice(&buffer[..count]).is_err() {
                    return Err(MeshFault::NoMemory);
                }
            }
            Err(Failed) => return Err(MeshFault::ReadFault),
        }
    }
    Err(MeshFault::TooLong)
}
