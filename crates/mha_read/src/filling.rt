ghost use Rattle.std.specs.Prelude.{◌≡◌, ◌+◌, ◌<◌, ◌≤◌, List, ℕ, length, take, drop, true, IfOk, OnErr};
ghost use Rattle.std.specs.Io.KnownBytes.{Consumes, IsAtEnd, Keeps};
ghost use Rattle.st_base.specs.Causes.{HasCause};
ghost use Rattle.st_base.specs.Frames.{OnlyInput};

use st_base::{Desk, Failed};

// Reads into the places from one on, and leaves those before it.
fn read_at<D: Desk>(desk: &mut D, into: &mut [u8], at: usize) -> Result<usize, Failed>
    requires is_open { (D.input desk.old).is_open ≡ true }
    requires room { at < length into.old }
    ensures within { IfOk result (λ n. at + n ≤ length into.new) }
    ensures front { take at into.new ≡ take at into.old }
    ensures bytes { IfOk result (λ n. Consumes (D.input desk.old).left
        (D.input desk.new).left (take n (drop at into.new))) }
    ensures ends { IfOk result (λ n. n ≡ 0 → IsAtEnd (D.input desk.new).left) }
    ensures part { OnErr result (Keeps (D.input desk.old).left (D.input desk.new).left) }
    ensures cause { HasCause (D.input desk.old).faults (D.input desk.new).faults result }
    ensures is_open { (D.input desk.new).is_open ≡ true }
    ensures apart { OnlyInput D.Desk desk.old desk.new }
{
    desk.read(&mut into[at..])
}

/// Reads until the room is full or the input ends, and answers how many bytes that gave.
pub fn fill<D: Desk>(desk: &mut D, into: &mut [u8]) -> Result<usize, Failed>
    requires { (D.input desk.old).is_open ≡ true }
    ensures within { IfOk result (λ n. n ≤ length into.new) }
    ensures bytes { IfOk result (λ n. Consumes (D.input desk.old).left
        (D.input desk.new).left (take n into.new)) }
    ensures ends { IfOk result (λ n. n < length into.new → IsAtEnd (D.input desk.new).left) }
    ensures part { OnErr result ((n : ℕ) × (n < length into.new) ×
        Consumes (D.input desk.old).left (D.input desk.new).left (take n into.new)) }
    ensures cause { HasCause (D.input desk.old).faults (D.input desk.new).faults result }
    ensures is_open { (D.input desk.new).is_open ≡ true }
    ensures apart { OnlyInput D.Desk desk.old desk.new }
{
    let mut at = 0usize;
    for _ in 0..into.len() {
        if at >= into.len() {
            return Ok(at);
        }
        match read_at(desk, into, at) {
            Ok(0) => return Ok(at),
            Ok(count) => at += count,
            Err(Failed) => return Err(Failed),
        }
    }
    Ok(at)
}
