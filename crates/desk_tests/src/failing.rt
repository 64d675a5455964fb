//! The desk over files and streams that are interrupted, fail, or take nothing.
ghost use Rattle.std.specs.Prelude.{⊤};

use desk_std::{FileSystem, StdDesk};
use st_base::{Desk, Failed, Port};
use std::cell::Cell;
use std::fs::OpenOptions;
use std::io::{self, Error, ErrorKind, Read, Write};
use table_lines::{field, number};

/// A call that is made on a file or a stream.
#[derive(Clone, Copy, PartialEq, Eq)]
enum Call {
    Open,
    Read,
    Write,
    Flush,
}

/// What a call comes to, once it is not interrupted any more.
#[derive(Clone, Copy, PartialEq, Eq)]
enum End {
    Good,
    Bad,
    Nothing,
}

/// One call is interrupted so often, and then comes to this. All others are good.
#[derive(Clone, Copy)]
struct Plan {
    call: Call,
    interruptions: u64,
    end: End,
}

impl Plan {
    // The answer of a call that was interrupted so often before.
    fn answer(self, call: Call, tries: u64) -> io::Result<usize> {
        if self.call != call {
            return Ok(1);
        }
        if tries < self.interruptions {
            return Err(Error::from(ErrorKind::Interrupted));
        }
        match self.end {
            End::Good => Ok(1),
            End::Bad => Err(Error::from(ErrorKind::StorageFull)),
            End::Nothing => Ok(0),
        }
    }
}

/// A file of one byte, or a stream.
#[derive(Drop)]
struct Fake {
    plan: Plan,
    tries: u64,
}

impl Fake {
    fn new(plan: Plan) -> Fake {
        Fake { plan, tries: 0 }
    }

    fn answer(&mut self, call: Call) -> io::Result<usize> {
        let answer = self.plan.answer(call, self.tries);
        self.tries = self.tries.wrapping_add(1);
        answer
    }
}

impl Read for Fake {
    fn read(&mut self, into: &mut [u8]) -> io::Result<usize> {
        let count = self.answer(Call::Read)?;
        Ok(count.min(into.len()))
    }
}

impl Write for Fake {
    fn write(&mut self, bytes: &[u8]) -> io::Result<usize> {
        let count = self.answer(Call::Write)?;
        Ok(count.min(bytes.len()))
    }

    fn flush(&mut self) -> io::Result<()> {
        match self.answer(Call::Flush) {
            Ok(_) => Ok(()),
            Err(error) => Err(error),
        }
    }
}

#[derive(Drop)]
struct FakeFiles {
    plan: Plan,
    tries: Cell<u64>,
}

impl FakeFiles {
    fn new(plan: Plan) -> FakeFiles {
        FakeFiles {
            plan,
            tries: Cell::new(0),
        }
    }
}

impl FileSystem for FakeFiles {
    type File = Fake;

    ghost is_opened = { λ _ _ _. ⊤ };

    fn open(&self, _how: &OpenOptions, _name: &str) -> io::Result<Fake> {
        let tries = self.tries.get();
        self.tries.set(tries.wrapping_add(1));
        match self.plan.answer(Call::Open, tries) {
            Ok(_) => Ok(Fake::new(self.plan)),
            Err(error) => Err(error),
        }
    }
}

// The call on the desk, the call below it, how often that one is interrupted, what it comes to, and the answer.
const CALLS: &str = "\
input  | open  | 0    | good    | ok
input  | open  | 1    | good    | ok
input  | open  | 2    | good    | ok
input  | open  | 1000 | good    | ok
input  | open  | 1001 | good    | failed
input  | open  | 0    | bad     | failed
input  | open  | 1000 | bad     | failed
read   | read  | 0    | good    | ok
read   | read  | 2    | good    | ok
read   | read  | 1000 | good    | ok
read   | read  | 1001 | good    | failed
read   | read  | 0    | bad     | failed
read   | read  | 3    | bad     | failed
read   | read  | 0    | nothing | end
output | open  | 0    | good    | ok
output | open  | 2    | good    | ok
output | open  | 1000 | good    | ok
output | open  | 1001 | good    | failed
output | open  | 0    | bad     | failed
write  | write | 0    | good    | ok
write  | write | 2    | good    | ok
write  | write | 1000 | good    | ok
write  | write | 1001 | good    | failed
write  | write | 0    | bad     | failed
write  | write | 0    | nothing | failed
write  | write | 9    | nothing | failed
finish | flush | 0    | good    | ok
finish | flush | 2    | good    | ok
finish | flush | 1000 | good    | ok
finish | flush | 1001 | good    | failed
finish | flush | 0    | bad     | failed
face   | open  | 0    | bad     | not opened
face   | write | 0    | good    | ok
face   | write | 9    | nothing | failed
neigh  | flush | 0    | good    | ok
neigh  | flush | 0    | bad     | failed
print  | write | 0    | good    | ok
print  | write | 1000 | good    | ok
print  | write | 1001 | good    | failed
print  | write | 0    | bad     | failed
print  | write | 0    | nothing | failed
end    | flush | 0    | good    | ok
end    | flush | 1000 | good    | ok
end    | flush | 1001 | good    | failed
end    | flush | 0    | bad     | failed
";

fn call_of(name: &[u8]) -> Call {
    match name {
        b"open" => Call::Open,
        b"read" => Call::Read,
        b"write" => Call::Write,
        _ => Call::Flush,
    }
}

fn end_of(name: &[u8]) -> End {
    match name {
        b"good" => End::Good,
        b"bad" => End::Bad,
        _ => End::Nothing,
    }
}

// The word for an answer.
fn told(answer: Result<usize, Failed>) -> &'static [u8] {
    match answer {
        Ok(0) => b"end",
        Ok(_) => b"ok",
        Err(Failed) => b"failed",
    }
}

// The word for an answer without a number.
fn told_end(answer: Result<(), Failed>) -> &'static [u8] {
    match answer {
        Ok(()) => b"ok",
        Err(Failed) => b"failed",
    }
}

// What a call on the desk answers, where the calls below go by this plan.
fn answer(call: &[u8], plan: Plan) -> &'static [u8] {
    let mut desk = StdDesk::new(FakeFiles::new(plan), Fake::new(plan), Fake::new(plan));
    let mut into = [0; 4];
    match call {
        b"input" => told_end(desk.open_input(b"a")),
        b"read" => match desk.open_input(b"a") {
            Ok(()) => told(desk.read(&mut into)),
            Err(Failed) => b"not opened",
        },
        b"output" => told_end(desk.open_output(Port::Node, b"a")),
        b"write" => match desk.open_output(Port::Ele, b"a") {
            Ok(()) => told(desk.write(Port::Ele, b"abcd")),
            Err(Failed) => b"not opened",
        },
        b"face" => match desk.open_output(Port::Face, b"a") {
            Ok(()) => told(desk.write(Port::Face, b"abcd")),
            Err(Failed) => b"not opened",
        },
        b"neigh" => match desk.open_output(Port::Neigh, b"a") {
            Ok(()) => told_end(desk.finish(Port::Neigh)),
            Err(Failed) => b"not opened",
        },
        b"finish" => match desk.open_output(Port::Node, b"a") {
            Ok(()) => told_end(desk.finish(Port::Node)),
            Err(Failed) => b"not opened",
        },
        b"print" => told(desk.write(Port::Report, b"abcd")),
        _ => told_end(desk.finish(Port::Report)),
    }
}

#[test]
fn tries_again_and_fails(rt: HostRuntime) {
    for row in CALLS.lines() {
        let (call, fields) = field(row.as_bytes());
        let (below, fields) = field(fields);
        let (interruptions, fields) = field(fields);
        let (end, wanted) = field(fields);
        let plan = Plan {
            call: call_of(below),
            interruptions: u64::from(number(interruptions)),
            end: end_of(end),
        };
        assert!(rt; answer(call, plan) == wanted.trim_ascii(), "in {row}");
    }
}
