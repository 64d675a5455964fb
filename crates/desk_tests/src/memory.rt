//! The desks in memory: what they give and take, and that each switch makes its call fail.
ghost use Rattle.std.specs.Prelude.{◌≡◌, true};
ghost use Rattle.st_base.specs.Desk.{IsStart};
ghost use Rattle.desk_mem.specs.Meanings.{mem_state};

use crate::rows::port_of;
use desk_mem::{MemDesk, SteadyDesk};
use st_base::{Desk, Failed, Port};
use table_lines::{field, number};

// What a caller with a desk of its own type needs: a start, and that a worker may hold the desk.
fn begun<D: Desk + Send>(desk: D) -> D
    requires { IsStart (D.input desk) (D.ports desk) (D.tried desk) }
    ensures { result ≡ desk }
{
    desk
}

// What the rows of both tables begin with: a name, how many bytes a call moves at most, after how many bytes calls
// fail, what is refused, and what is noted; and what stands behind that.
#[derive(Drop)]
struct Row<'a> {
    name: &'a [u8],
    most: usize,
    limit: u64,
    call: &'a [u8],
    wanted: &'a [u8],
    rest: &'a [u8],
}

fn row_of(row: &[u8]) -> Row<'_> {
    let (name, rest) = field(row);
    let (most, rest) = field(rest);
    let (limit, rest) = field(rest);
    let (call, rest) = field(rest);
    let (wanted, rest) = field(rest);
    Row {
        name,
        most: number(most) as usize,
        limit: u64::from(number(limit)),
        call,
        wanted,
        rest,
    }
}

// The name, how many bytes a read moves at most, after how many bytes reads fail, what is refused, what four reads of
// at most four bytes give, and how many calls failed. `a` holds `later`, and `b` holds `other`.
const READS: &str = "\
a | 9 | 9 |       | late r - -         | 0
b | 9 | 9 |       | othe r - -         | 0
a | 2 | 9 |       | la te r -          | 0
a | 2 | 3 |       | la t failed failed | 2
a | 9 | 0 |       | failed failed failed failed | 4
a | 9 | 4 |       | late failed failed failed | 3
a | 1 | 9 |       | l a t e            | 0
c | 9 | 9 |       | no                 | 1
a | 9 | 9 | input | no                 | 1
";

fn log_piece(log: &mut Vec<u8>, piece: &[u8]) -> bool {
    log.extend_from_slice(piece).is_ok() && log.push(b' ').is_ok()
}

// Reads once, and notes what came.
fn read_once<D: Desk>(desk: &mut D, log: &mut Vec<u8>) -> bool
    requires { (D.input desk.old).is_open ≡ true }
    ensures { (D.input desk.new).is_open ≡ true }
{
    let mut into = [0; 4];
    match desk.read(&mut into) {
        Ok(0) => log_piece(log, b"-"),
        Ok(count) => log_piece(log, &into[..count]),
        Err(Failed) => log_piece(log, b"failed"),
    }
}

// Opens the input, and reads four times.
fn read_all<D: Desk>(desk: &mut D, name: &[u8], log: &mut Vec<u8>) -> bool {
    match desk.open_input(name) {
        Ok(()) => {
            read_once(desk, log)
                && read_once(desk, log)
                && read_once(desk, log)
                && read_once(desk, log)
        }
        Err(Failed) => log_piece(log, b"no"),
    }
}

// Makes a call on the desk fail.
fn refuse(desk: &mut MemDesk, port: Port, call: &[u8])
    ensures { mem_state desk.new ≡ mem_state desk.old }
{
    match call {
        b"input" => desk.refuse_input(),
        b"open" => desk.refuse_open(port),
        b"finish" => desk.refuse_finish(port),
        _ => {}
    }
}

#[test]
fn reads_what_it_holds(rt: HostRuntime) {
    for text in READS.lines() {
        let row = row_of(text.as_bytes());
        let mut desk = begun(MemDesk::new(rt.alloc()));
        assert!(rt; desk.put_input(b"a", b"first").is_ok());
        assert!(rt; desk.put_input(b"b", b"other").is_ok());
        assert!(rt; desk.put_input(b"a", b"later").is_ok());
        desk.at_most(row.most.max(1));
        desk.fail_input_after(row.limit);
        refuse(&mut desk, Port::Node, row.call);
        let mut log = Vec::new(rt.alloc());
        assert!(rt; read_all(&mut desk, row.name, &mut log), "in {text}");
        assert!(rt; log.trim_ascii() == row.wanted, "in {text}");
        let faults = number(row.rest.trim_ascii());
        assert_eq!(rt; desk.input_faults(), u64::from(faults), "in {text}");
        for port in [
            Port::Node,
            Port::Ele,
            Port::Report,
            Port::Trouble,
            Port::Face,
            Port::Neigh,
        ] {
            assert_eq!(rt; desk.faults(port), 0, "in {text}");
        }
    }
}

// The port, how many bytes a write moves at most, after how many bytes writes fail, what is refused, how the opening,
// two writes of `abcd` and the finishing end, the text, and how many calls failed.
const WRITES: &str = "\
node    | 9 | 9 |        | ok 4 4 ok             | abcdabcd | 0
ele     | 9 | 9 |        | ok 4 4 ok             | abcdabcd | 0
report  | 9 | 9 |        | ok 4 4 ok             | abcdabcd | 0
face    | 9 | 9 |        | ok 4 4 ok             | abcdabcd | 0
neigh   | 9 | 9 |        | ok 4 4 ok             | abcdabcd | 0
trouble | 9 | 9 |        | ok 4 4 ok             | abcdabcd | 0
node    | 3 | 9 |        | ok 3 3 ok             | abcabc   | 0
ele     | 3 | 9 |        | ok 3 3 ok             | abcabc   | 0
trouble | 2 | 9 |        | ok 2 2 ok             | abab     | 0
report  | 1 | 9 |        | ok 1 1 ok             | aa       | 0
node    | 2 | 3 |        | ok 2 1 ok             | aba      | 0
node    | 9 | 3 |        | ok 3 failed ok        | abc      | 1
ele     | 9 | 4 |        | ok 4 failed ok        | abcd     | 1
face    | 9 | 4 |        | ok 4 failed ok        | abcd     | 1
neigh   | 3 | 4 |        | ok 3 1 ok             | abca     | 0
report  | 9 | 5 |        | ok 4 1 ok             | abcda    | 0
trouble | 9 | 0 |        | ok failed failed ok   |          | 2
node    | 9 | 9 | open   | no                    |          | 1
ele     | 9 | 9 | open   | no                    |          | 1
face    | 9 | 9 | open   | no                    |          | 1
neigh   | 9 | 9 | open   | no                    |          | 1
node    | 9 | 9 | finish | ok 4 4 failed         | abcdabcd | 1
ele     | 9 | 2 | finish | ok 2 failed failed    | ab       | 2
report  | 9 | 9 | finish | ok 4 4 failed         | abcdabcd | 1
face    | 9 | 9 | finish | ok 4 4 failed         | abcdabcd | 1
neigh   | 9 | 9 | finish | ok 4 4 failed         | abcdabcd | 1
trouble | 9 | 9 | finish | ok 4 4 failed         | abcdabcd | 1
";

// Writes once, and notes how many bytes were taken.
fn write_once<D: Desk>(desk: &mut D, port: Port, log: &mut Vec<u8>) -> bool
    requires { (D.ports desk.old port).is_open ≡ true }
    ensures { (D.ports desk.new port).is_open ≡ true }
{
    match desk.write(port, b"abcd") {
        Ok(count) => log_piece(log, &[b'0' + count as u8]),
        Err(Failed) => log_piece(log, b"failed"),
    }
}

// Writes twice, and finishes.
fn write_all<D: Desk>(desk: &mut D, port: Port, log: &mut Vec<u8>) -> bool
    requires { (D.ports desk.old port).is_open ≡ true }
{
    if !log_piece(log, b"ok") || !write_once(desk, port, log) || !write_once(desk, port, log) {
        return false;
    }
    match desk.finish(port) {
        Ok(()) => log_piece(log, b"ok"),
        Err(Failed) => log_piece(log, b"failed"),
    }
}

// Opens the port if it is a file, and writes.
fn open_and_write<D: Desk>(desk: &mut D, port: Port, log: &mut Vec<u8>) -> bool
    requires { IsStart (D.input desk.old) (D.ports desk.old) (D.tried desk.old) }
{
    match port {
        Port::Node => match desk.open_output(Port::Node, b"a.node") {
            Ok(()) => write_all(desk, Port::Node, log),
            Err(Failed) => log_piece(log, b"no"),
        },
        Port::Ele => match desk.open_output(Port::Ele, b"a.ele") {
            Ok(()) => write_all(desk, Port::Ele, log),
            Err(Failed) => log_piece(log, b"no"),
        },
        Port::Face => match desk.open_output(Port::Face, b"a.face") {
            Ok(()) => write_all(desk, Port::Face, log),
            Err(Failed) => log_piece(log, b"no"),
        },
        Port::Neigh => match desk.open_output(Port::Neigh, b"a.neigh") {
            Ok(()) => write_all(desk, Port::Neigh, log),
            Err(Failed) => log_piece(log, b"no"),
        },
        Port::Report => write_all(desk, Port::Report, log),
        Port::Trouble => write_all(desk, Port::Trouble, log),
    }
}

#[test]
fn keeps_what_is_written(rt: HostRuntime) {
    for text in WRITES.lines() {
        let row = row_of(text.as_bytes());
        let (written, faults) = field(row.rest);
        let port = port_of(row.name);
        let mut desk = MemDesk::new(rt.alloc());
        desk.at_most(row.most.max(1));
        desk.fail_output_after(port, row.limit);
        refuse(&mut desk, port, row.call);
        let mut log = Vec::new(rt.alloc());
        assert!(rt; open_and_write(&mut desk, port, &mut log), "in {text}");
        assert!(rt; log.trim_ascii() == row.wanted, "in {text}");
        assert!(rt; desk.text(port) == written, "in {text}");
        let faults = number(faults.trim_ascii());
        assert_eq!(rt; desk.faults(port), u64::from(faults), "in {text}");
        assert_eq!(rt; desk.input_faults(), 0, "in {text}");
    }
}

#[test]
fn counts_what_is_written(rt: HostRuntime) {
    let same = b"same".to_vec(rt.alloc()).expect(&rt, "memory");
    let mut desk = begun(SteadyDesk::new(same));
    assert_eq!(rt; desk.write(Port::Report, b"abc"), Ok(3));
    assert_eq!(rt; desk.write(Port::Report, b"de"), Ok(2));
    assert_eq!(rt; desk.written(Port::Report), 5);
    assert_eq!(rt; desk.written(Port::Trouble), 0);
    assert!(rt; desk.open_input(b"any").is_ok());
    let mut into = [0; 6];
    assert_eq!(rt; desk.read(&mut into), Ok(4));
    assert_eq!(rt; into, *b"same\0\0");
    assert_eq!(rt; desk.read(&mut into), Ok(0));
}
