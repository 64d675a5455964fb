//! An input that is cut at each of its bytes, and devices that fail at each byte that they take or give.
ghost use Rattle.std.specs.Prelude.{IfOk};
ghost use Rattle.st_base.specs.Desk.{IsStart};
ghost use Rattle.desk_mem.specs.Meanings.{mem_input, mem_ports, mem_tried};

use crate::ports::whole;
use crate::rows::{PLAIN, desk_of, words_of};
use desk_mem::MemDesk;
use st_base::{NoMemory, OpenGate, Port, Words};
use std::alloc::Global;
use std::process::Abort;
use std::thread::Threads;
use stuff::stuff;

const COUNT: &[u8] = b"count a level=0.5";

// The ports in the order in which they are written, with faces and without.
const ALL: [Port; 5] = [Port::Node, Port::Ele, Port::Face, Port::Neigh, Port::Report];

const MOST: [Port; 3] = [Port::Node, Port::Ele, Port::Report];

// A desk that holds the first bytes of the input of one sample.
fn cut_desk(alloc: Global, len: usize) -> Result<MemDesk, NoMemory>
    ensures { IfOk result (λ desk. IsStart (mem_input desk) (mem_ports desk) (mem_tried desk)) }
{
    let mut input = Vec::new(alloc);
    if input.extend_from_slice(PLAIN).is_err() || input.push(1).is_err() {
        return Err(NoMemory);
    }
    input.truncate(len);
    let mut desk = MemDesk::new(alloc);
    desk.put_input(b"a", &input)?;
    Ok(desk)
}

// Counts over an input of `len` bytes.
fn check_cut<R: Threads + Sync + Abort>(rt: &R, alloc: Global, words: &Words, len: usize) {
    let mut desk = cut_desk(alloc, len).expect(rt, "memory");
    let outcome = stuff(rt, alloc, words, &mut desk, &OpenGate);
    let (status, line): (u8, &[u8]) = match len {
        293 => (0, b""),
        292 => (6, b"stuff: truncated: 0 of 1 bytes\n"),
        _ => (3, b"stuff: header ends early\n"),
    };
    assert_eq!(rt; outcome.status.code(), status, "of {len} bytes");
    assert!(rt; desk.text(Port::Trouble) == line, "of {len} bytes");
}

#[test]
fn inputs_end_at_each_byte(rt: HostRuntime) {
    let alloc = rt.alloc();
    let words = words_of(alloc, COUNT).expect(&rt, "memory");
    for len in 0..294 {
        check_cut(&rt, alloc, &words, len);
    }
}

// Counts where reading fails after so many bytes.
fn check_read<R: Threads + Sync + Abort>(
    rt: &R,
    alloc: Global,
    words: &Words,
    bytes: u64,
    slow: bool,
) {
    let mut desk = cut_desk(alloc, 293).expect(rt, "memory");
    desk.fail_input_after(bytes);
    if slow {
        desk.at_most(1);
    }
    let outcome = stuff(rt, alloc, words, &mut desk, &OpenGate);
    let status = if bytes < 293 { 7 } else { 0 };
    assert_eq!(rt; outcome.status.code(), status, "after {bytes} bytes");
    assert_eq!(rt;
        desk.text(Port::Report).is_empty(),
        bytes < 293,
        "after {bytes} bytes"
    );
}

#[test]
fn reads_fail_at_each_byte(rt: HostRuntime) {
    let alloc = rt.alloc();
    let words = words_of(alloc, COUNT).expect(&rt, "memory");
    for bytes in 0..294 {
        check_read(&rt, alloc, &words, bytes, false);
        check_read(&rt, alloc, &words, bytes, true);
    }
}

// Makes a mesh where writing to one of its ports fails after so many bytes.
fn check_write<R: Threads + Sync + Abort>(
    rt: &R,
    alloc: Global,
    words: &Words,
    ports: &[Port],
    failing: Port,
    bytes: usize,
    slow: bool,
) {
    let mut desk = desk_of(alloc, b"plain", b"01").expect(rt, "memory");
    desk.fail_output_after(failing, bytes as u64);
    if slow {
        desk.at_most(1);
    }
    let outcome = stuff(rt, alloc, words, &mut desk, &OpenGate);
    assert_eq!(rt; outcome.status.code(), 8, "after {bytes} bytes");
    let mut is_before = true;
    for port in ports {
        let text = desk.text(*port);
        if *port == failing {
            is_before = false;
            assert!(rt; text.len() == bytes, "after {bytes} bytes");
            assert!(rt; whole(*port).starts_with(text), "after {bytes} bytes");
        } else if is_before {
            assert!(rt; text == whole(*port), "after {bytes} bytes");
        } else {
            assert!(rt; text.is_empty(), "after {bytes} bytes");
        }
    }
}

#[test]
fn writes_fail_at_each_byte(rt: HostRuntime) {
    let alloc = rt.alloc();
    let meshed = words_of(alloc, b"mesh a out level=0.5 workers=3 slab=1 faces=yes").expect(
        &rt, "memory",
    );
    let streamed = words_of(alloc, b"stream a out level=0.5 workers=2 slab=1").expect(
        &rt, "memory",
    );
    for port in ALL {
        for bytes in 0..whole(port).len() {
            check_write(&rt, alloc, &meshed, &ALL, port, bytes, true);
        }
    }
    for port in MOST {
        for bytes in 0..whole(port).len() {
            check_write(&rt, alloc, &streamed, &MOST, port, bytes, false);
        }
    }
}
