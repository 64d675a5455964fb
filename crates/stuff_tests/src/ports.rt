//! What stands on the ports where devices fail, and where they do not.
ghost use Rattle.std.specs.Prelude.{◌≡◌};
ghost use Rattle.st_base.specs.Desk.{IsStart};
ghost use Rattle.desk_mem.specs.Meanings.{mem_input, mem_ports, mem_tried};

use crate::rows::{can_stream, cut, desk_of, field, fits, number, port_of, text_of, words_as};
use desk_mem::MemDesk;
pub use small_images::{ONE_SAMPLE_ELE_FILE as TETRAHEDRA, ONE_SAMPLE_NODE_FILE as NODES};
use st_base::{OpenGate, Port};
use std::alloc::Global;
use std::process::Abort;
use std::thread::Threads;
use stuff::stuff;

/// Its boundary triangles.
pub const TRIANGLES: &[u8] = b"24 0
0 0 2 1
1 0 1 3
2 0 4 2
3 0 3 4
4 1 2 5
5 1 6 3
6 1 5 10
7 1 10 6
8 2 4 8
9 2 11 5
10 2 8 11
11 3 9 4
12 3 6 12
13 3 12 9
14 4 13 8
15 4 9 13
16 5 11 10
17 6 10 12
18 8 13 11
19 9 12 13
20 10 11 14
21 10 14 12
22 11 13 14
23 12 14 13
";

/// The neighbours of its tetrahedra.
pub const NEIGHBOURS: &[u8] = b"24 4
0 4 2 1 -1
1 5 3 -1 0
2 8 3 0 -1
3 11 2 -1 1
4 9 6 -1 0
5 12 7 1 -1
6 16 7 -1 4
7 17 6 5 -1
8 14 10 -1 2
9 16 10 4 -1
10 18 -1 8 9
11 15 13 3 -1
12 17 13 -1 5
13 19 -1 12 11
14 18 -1 15 8
15 19 -1 11 14
16 20 -1 9 6
17 21 -1 7 12
18 -1 22 10 14
19 -1 23 15 13
20 -1 22 21 16
21 -1 23 17 20
22 -1 23 20 18
23 -1 22 19 21
";

/// The report of its mesh.
pub const REPORT: &[u8] = b"nodes 15
tetrahedra 24
least +1/4 tetrahedron 0 edge 1 7
greatest 0/1 tetrahedron 0 edge 0 7
";

/// All ports, in the order of a row's fields.
pub const EVERY: [Port; 6] = [
    Port::Node,
    Port::Ele,
    Port::Face,
    Port::Neigh,
    Port::Report,
    Port::Trouble,
];

/// The whole text of a port.
pub fn whole(port: Port) -> &'static [u8] {
    match port {
        Port::Node => NODES,
        Port::Ele => TETRAHEDRA,
        Port::Face => TRIANGLES,
        Port::Neigh => NEIGHBOURS,
        Port::Report => REPORT,
        Port::Trouble => b"",
    }
}

// How devices fail, words, the status, Node, Ele, Face, Neigh, Report and Trouble. A text that is whole is that of the
// tables above. A mesh without faces is streamed too, with the same answer.
const PORTS: &[u8] = b"\
 | mesh a out level=0.5 | 0 | whole | whole | | | whole |
slow | mesh a out level=0.5 | 0 | whole | whole | | | whole |
 | mesh a out level=0.5 faces=yes | 0 | whole | whole | whole | whole | whole |
slow | mesh a out faces=yes level=0.5 workers=2 slab=1 | 0 | whole | whole | whole | whole | whole |
 | mesh a out level=0.5 faces=yes first=1 | 0 | 15 3 0 1;1 .. | 24 4 0;1 1 2 3 8;2 1 2 8 4;.. | 24 0;1 1 3 2;2 1 2 4;3 1 5 3;4 1 4 5;.. | 24 4;1 5 3 2 -1;2 6 4 -1 1;.. | nodes 15;.. |
 | mesh a out level=1 faces=yes | 0 | 0 3 0 1; | 0 4 0; | 0 0; | 0 4; | nodes 0;tetrahedra 0;no tetrahedra; |
after input 100 | count a level=0.5 | 7 | | | | | | stuff: read fault;
after input 292 | count a level=0.5 | 7 | | | | | | stuff: read fault;
after input 293 | count a level=0.5 | 0 | | | | | plus 1 zero 0 minus 34; |
after input 100 | mesh a out level=0.5 | 7 | | | | | | stuff: read fault;
open input | mesh a out level=0.5 | 7 | | | | | | stuff: read fault;
open input | mesh a out faces=yes level=0.5 | 7 | | | | | | stuff: read fault;
open input | demo size=2 seed=7 | 0 | | | | | plus 0 zero 0 minus 91;nodes 0;tetrahedra 0;no tetrahedra; |
open input | audit a | 7 | | | | | | stuff: read fault;
open input | probe a level=0.5 at=0,0,0 | 7 | | | | | | stuff: read fault;
after input 292 | probe a level=0.5 at=0,0,0 | 7 | | | | | | stuff: read fault;
slow, after report 5 | count a level=0.5 | 8 | | | | | plus# | stuff: write fault: report;
slow, after report 9 | probe a level=0.5 at=0,0,0 | 8 | | | | | tetrahedr | stuff: write fault: report;
after trouble 6 | count b level=0.5 | 7 | | | | | | stuff:
open node | mesh a out level=0.5 | 8 | | | | | | stuff: write fault: node;
open ele | mesh a out level=0.5 | 8 | | | | | | stuff: write fault: ele;
open face | mesh a out faces=yes level=0.5 | 8 | | | | | | stuff: write fault: face;
open neigh | mesh a out faces=yes level=0.5 | 8 | | | | | | stuff: write fault: neigh;
after node 30 | mesh a out level=0.5 | 8 | 15 3 0 1;0 0.0000000000000 0.0 | | | | | stuff: write fault: node;
after node 30 | stream a out level=0.5 workers=64 slab=1 | 8 | 15 3 0 1;0 0.0000000000000 0.0 | | | | | stuff: write fault: node;
finish node | mesh a out level=0.5 | 8 | whole | | | | | stuff: write fault: node;
finish node | mesh a out faces=yes level=0.5 | 8 | whole | | | | | stuff: write fault: node;
after ele 10 | mesh a out level=0.5 | 8 | whole | 24 4 0;0 0 | | | | stuff: write fault: ele;
slow, after ele 10 | mesh a out level=0.5 | 8 | whole | 24 4 0;0 0 | | | | stuff: write fault: ele;
after ele 10 | mesh a out faces=yes level=0.5 | 8 | whole | 24 4 0;0 0 | | | | stuff: write fault: ele;
finish ele | mesh a out level=0.5 | 8 | whole | whole | | | | stuff: write fault: ele;
slow, after face 3 | mesh a out faces=yes level=0.5 | 8 | whole | whole | 24# | | | stuff: write fault: face;
finish face | mesh a out faces=yes level=0.5 | 8 | whole | whole | whole | | | stuff: write fault: face;
after neigh 3 | mesh a out faces=yes level=0.5 | 8 | whole | whole | whole | 24# | | stuff: write fault: neigh;
finish neigh | mesh a out faces=yes level=0.5 | 8 | whole | whole | whole | whole | | stuff: write fault: neigh;
after report 9 | mesh a out level=0.5 | 8 | whole | whole | | | nodes 15; | stuff: write fault: report;
after report 9 | mesh a out faces=yes level=0.5 | 8 | whole | whole | whole | whole | nodes 15; | stuff: write fault: report;
";

// Makes a device fail, or slow.
fn turn(desk: &mut MemDesk, switch: &[u8])
    requires { IsStart (mem_input desk.old) (mem_ports desk.old) (mem_tried desk.old) }
    ensures { IsStart (mem_input desk.new) (mem_ports desk.new) (mem_tried desk.new) }
{
    let (how, rest) = cut(switch, b' ');
    let (device, after) = cut(rest, b' ');
    match (how, device) {
        (b"slow", _) => desk.at_most(1),
        (b"open", b"input") => desk.refuse_input(),
        (b"open", port) => desk.refuse_open(port_of(port)),
        (b"finish", port) => desk.refuse_finish(port_of(port)),
        (b"after", b"input") => desk.fail_input_after(number(after)),
        (b"after", port) => desk.fail_output_after(port_of(port), number(after)),
        _ => {}
    }
}

pub fn turn_all(desk: &mut MemDesk, switches: &[u8])
    requires { IsStart (mem_input desk.old) (mem_ports desk.old) (mem_tried desk.old) }
    ensures { IsStart (mem_input desk.new) (mem_ports desk.new) (mem_tried desk.new) }
{
    let mut rest = switches;
    while !rest.is_empty() {
        let (switch, behind) = cut(rest, b',');
        turn(desk, switch.trim_ascii());
        rest = behind;
    }
}

/// The text of a field, or the whole one of a port.
pub fn wanted_of(port: Port, text: &[u8]) -> &[u8] {
    match text {
        b"whole" => whole(port),
        _ => text,
    }
}

// Carries out a row, and compares.
fn check<R: Threads + Sync + Abort>(rt: &R, alloc: Global, n: u32, row: &[u8], streamed: bool) {
    let (switches, rest) = field(row);
    let (words, rest) = field(rest);
    let (status, rest) = field(rest);
    if streamed && !can_stream(words) {
        return;
    }
    let words = words_as(alloc, words, streamed).expect(rt, "memory");
    let mut desk = desk_of(alloc, b"plain", b"01").expect(rt, "memory");
    turn_all(&mut desk, switches);
    let outcome = stuff(rt, alloc, &words, &mut desk, &OpenGate);
    assert_eq!(rt;
        u64::from(outcome.status.code()),
        number(status),
        "in row {n}"
    );
    let mut rest = rest;
    for port in EVERY {
        let (wanted, behind) = field(rest);
        let wanted = text_of(alloc, wanted).expect(rt, "memory");
        assert!(rt;
            fits(desk.text(port), wanted_of(port, &wanted), b""),
            "in row {n}"
        );
        rest = behind;
    }
}

#[test]
fn leaves_the_ports(rt: HostRuntime) {
    let mut rest = PORTS;
    let mut n = 0u32;
    let alloc = rt.alloc();
    while !rest.is_empty() {
        let (row, behind) = cut(rest, b'\n');
        n = n.wrapping_add(1);
        check(&rt, alloc, n, row, false);
        check(&rt, alloc, n, row, true);
        rest = behind;
    }
}
