//! Finished files that are judged, and points that are probed.
ghost use Rattle.std.specs.Prelude.{◌≡◌, IfOk};
ghost use Rattle.st_base.specs.Desk.{IsStart};
ghost use Rattle.desk_mem.specs.Meanings.{mem_input, mem_ports, mem_tried};

use crate::ports::{NODES, TETRAHEDRA, turn_all};
use crate::rows::{cut, desk_of, field, fits, text_of, words_of};
use desk_mem::MemDesk;
use st_base::{NoMemory, OpenGate, Port, Status};
use std::alloc::Global;
use std::process::Abort;
use std::thread::Threads;
use stuff::stuff;

// How devices fail, the nodes, the tetrahedra, the status, Report and Trouble. A text that is whole is that of one sample
// above the level; where another ends in `..`, what follows is as in that.
const FILES: &[u8] = b"\
 | whole | whole | Done | sound nodes 15 tetrahedra 24 boundary 24; |
slow | whole | whole | Done | sound nodes 15 tetrahedra 24 boundary 24; |
 | whole | 24 4 0;0 1 0 2 7;.. | NotSound { verdict: NotPositive { tet: 0 } } | | stuff: not sound: tetrahedron 0;
 | whole | 24 4 0;0 0 1 2 7;1 0 1 2 7;.. | NotSound { verdict: Crowded { tet: 0 } } | | stuff: not sound: tetrahedron 0;
 | 5 3 0 0;0 0 0 0;1 1 0 0;2 0 1 0;3 0 0 1;4 0 0 2; | 2 4 0;0 0 1 2 3;1 0 1 2 4; | NotSound { verdict: Turned { tet: 0 } } | | stuff: not sound: tetrahedron 0;
 | 4 3 0 0;1 0 0 0;2 1 0 0;3 0 1 0;4 0 0 1; | 1 4 0;1 1 3 2 4; | NotSound { verdict: NotPositive { tet: 1 } } | | stuff: not sound: tetrahedron 1;
 | 5 3 0 0;0 0 0 0;1 1 0 0;2 0 1 0;3 0 0 1;4 0 0 2; | 2 4 0;0 0 1 2 3;1 0 1 2 5; | BadMesh { file: Ele, fault: BadNode { place: 16 } } | | stuff: bad mesh file: ele;
 | 1 3 0 0;0 0.1 0 0; | whole | BadMesh { file: Node, fault: BadPlace { place: 8 } } | | stuff: bad mesh file: node;
 | | whole | BadMesh { file: Node, fault: EndsEarly { got: 0, wanted: 1 } } | | stuff: bad mesh file: node;
 | whole | 24 4 0; | BadMesh { file: Ele, fault: EndsEarly { got: 1, wanted: 25 } } | | stuff: bad mesh file: ele;
 | 1 3 0 0;0 0 0; | | BadMesh { file: Node, fault: BadLine { place: 8 } } | | stuff: bad mesh file: node;
 | 0 3 0 1; | 0 4 0; | Done | sound nodes 0 tetrahedra 0 boundary 0; |
after input 5 | whole | whole | ReadFault | | stuff: read fault;
slow, after input 500 | whole | whole | ReadFault | | stuff: read fault;
after report 9 | whole | whole | WriteFault { port: Report } | sound nod | stuff: write fault: report;
slow, after trouble 9 | | whole | BadMesh { file: Node, fault: EndsEarly { got: 0, wanted: 1 } } | | stuff: ba
";

// A desk that holds two texts under a.node and a.ele.
fn files_desk(alloc: Global, nodes: &[u8], tets: &[u8]) -> Result<MemDesk, NoMemory>
    ensures { IfOk result (λ desk. IsStart (mem_input desk) (mem_ports desk) (mem_tried desk)) }
{
    let mut desk = MemDesk::new(alloc);
    desk.put_input(b"a.node", nodes)?;
    desk.put_input(b"a.ele", tets)?;
    Ok(desk)
}

// The text that a field says.
fn finished_text(alloc: Global, wanted: &[u8], whole: &[u8]) -> Result<Vec<u8>, NoMemory> {
    let (front, from) = match wanted {
        b"whole" => (b"".as_slice(), 0),
        [front @ .., b'.', b'.'] => (front, front.len()),
        _ => (wanted, whole.len()),
    };
    let Ok(mut text) = text_of(alloc, front) else {
        return Err(NoMemory);
    };
    if from <= whole.len() && text.extend_from_slice(&whole[from..]).is_err() {
        return Err(NoMemory);
    }
    Ok(text)
}

// Judges the files on a desk, and compares the status, Report and Trouble.
fn check_audit<R: Threads + Sync + Abort>(
    rt: &R,
    alloc: Global,
    n: u32,
    desk: &mut MemDesk,
    wanted: &[u8],
)
    requires { IsStart (mem_input desk.old) (mem_ports desk.old) (mem_tried desk.old) }
{
    let (status, rest) = field(wanted);
    let words = words_of(alloc, b"audit a").expect(rt, "memory");
    let outcome = stuff(rt, alloc, &words, desk, &OpenGate);
    let told = format!(in alloc; "{:?}", outcome.status).expect(rt, "memory");
    assert!(rt; told.as_bytes() == status, "in row {n}: {told}");
    assert!(rt; outcome.trace.is_none(), "in row {n}");
    let mut rest = rest;
    for port in [Port::Report, Port::Trouble] {
        let (wanted, behind) = field(rest);
        let wanted = text_of(alloc, wanted).expect(rt, "memory");
        assert!(rt; fits(desk.text(port), &wanted, b""), "in row {n}");
        rest = behind;
    }
}

// Reads a row, and carries it out.
fn check<R: Threads + Sync + Abort>(rt: &R, alloc: Global, n: u32, row: &[u8]) {
    let (switches, rest) = field(row);
    let (nodes, rest) = field(rest);
    let (tets, rest) = field(rest);
    let nodes = finished_text(alloc, nodes, NODES).expect(rt, "memory");
    let tets = finished_text(alloc, tets, TETRAHEDRA).expect(rt, "memory");
    let mut desk = files_desk(alloc, &nodes, &tets).expect(rt, "memory");
    turn_all(&mut desk, switches);
    check_audit(rt, alloc, n, &mut desk, rest);
}

#[test]
fn judges_finished_files(rt: HostRuntime) {
    let mut rest = FILES;
    let mut n = 0u32;
    let alloc = rt.alloc();
    while !rest.is_empty() {
        let (row, behind) = cut(rest, b'\n');
        n = n.wrapping_add(1);
        check(&rt, alloc, n, row);
        rest = behind;
    }
}

// Words, head, samples, and how an audit of the files that they make ends: its status, Report and Trouble. Files in the
// volume's own units can have places that are no multiples of 1/8192.
const MADE: &[u8] = b"\
mesh a out level=0.5 | plain | 01 | Done | sound nodes 15 tetrahedra 24 boundary 24; |
mesh a out level=0.5 first=1 | plain | 01 | Done | sound nodes 15 tetrahedra 24 boundary 24; |
mesh a out level=0.5 faces=yes | plain | 01 | Done | sound nodes 15 tetrahedra 24 boundary 24; |
stream a out level=0.5 first=1 slab=1 | plain | 01 | Done | sound nodes 15 tetrahedra 24 boundary 24; |
mesh a out level=1 | plain | 01 | Done | sound nodes 0 tetrahedra 0 boundary 0; |
mesh a out level=0.5 first=1 short=0 | MET_UCHAR 2 1 1 | 01 01 | Done | sound nodes 28 tetrahedra 52 boundary .. |
mesh a out level=0.5 step=2 | MET_UCHAR 3 1 1 | 01 00 01 | Done | sound nodes 24 tetrahedra 44 boundary .. |
stream a out level=0.5 | MET_UCHAR 2 2 2 | 01*7 00 | Done | sound nodes .. |
mesh a out level=0.5 | MET_UCHAR 8 8 8 | 01*512 | Done | sound nodes .. |
mesh a out level=0.5 units=world | NDims = 3;DimSize = 1 1 1;ElementType = MET_UCHAR;ElementSpacing = 2 2 2;Offset = 10 -20 0.25;ElementDataFile = LOCAL; | 01 | Done | sound nodes 15 tetrahedra 24 boundary 24; |
mesh a out level=0.5 units=world | NDims = 3;DimSize = 1 1 1;ElementType = MET_UCHAR;ElementSpacing = 0.5 0.5 2;Offset = 10 -20 0.25;ElementDataFile = LOCAL; | 01 | BadMesh { file: Node, fault: BadPlace { place: 119 } } | | stuff: bad mesh file: node;
";

// Makes the mesh of a row, and judges its files.
fn check_made<R: Threads + Sync + Abort>(rt: &R, alloc: Global, n: u32, row: &[u8]) {
    let (words, rest) = field(row);
    let (head, rest) = field(rest);
    let (samples, rest) = field(rest);
    let words = words_of(alloc, words).expect(rt, "memory");
    let mut desk = desk_of(alloc, head, samples).expect(rt, "memory");
    let outcome = stuff(rt, alloc, &words, &mut desk, &OpenGate);
    assert!(rt; outcome.status == Status::Done, "in row {n}");
    let mut files = files_desk(alloc, desk.text(Port::Node), desk.text(Port::Ele)).expect(
        rt, "memory",
    );
    check_audit(rt, alloc, n, &mut files, rest);
}

#[test]
fn meshes_are_judged_sound(rt: HostRuntime) {
    let mut rest = MADE;
    let mut n = 0u32;
    let alloc = rt.alloc();
    while !rest.is_empty() {
        let (row, behind) = cut(rest, b'\n');
        n = n.wrapping_add(1);
        check_made(&rt, alloc, n, row);
        rest = behind;
    }
}

// Words, and the line.
const POINTS: &[u8] = b"\
probe a level=0.5 at=0,0,0 | tetrahedron 0 weights 0 0 0 44894461952
probe a at=-0,0,0 level=0.5 | tetrahedron 0 weights 0 0 0 44894461952
probe a level=0.5 at=0,0,-4096 | tetrahedron 0 weights 44894461952 0 0 0
probe a level=0.5 at=0,-1000,-2000 | tetrahedron 0 weights 10960562000 9588736000 9588736000 14756427952
probe a at=0,-1000,-2000 short=1687 step=64 long=1023 level=0.5 | tetrahedron 0 weights 10960562000 9588736000 9588736000 14756427952
probe a level=0.5 at=0,0,-4097 | outside
probe a level=0.5 at=-1099511627775,0,1099511627775 | outside
probe a level=0.5 below=yes at=0,0,0 | outside
probe a level=1 at=0,0,0 | outside
";

// Probes a point in the mesh of one sample, and compares.
fn check_point<R: Threads + Sync + Abort>(rt: &R, alloc: Global, n: u32, row: &[u8]) {
    let (words, rest) = field(row);
    let mut line = text_of(alloc, rest.trim_ascii()).expect(rt, "memory");
    line.push(b'\n').expect(rt, "memory");
    let words = words_of(alloc, words).expect(rt, "memory");
    let mut desk = desk_of(alloc, b"plain", b"01").expect(rt, "memory");
    let outcome = stuff(rt, alloc, &words, &mut desk, &OpenGate);
    assert!(rt; outcome.status == Status::Done, "in row {n}");
    assert!(rt; outcome.trace.is_some(), "in row {n}");
    assert!(rt; desk.text(Port::Report) == line.as_slice(), "in row {n}");
    assert!(rt; desk.text(Port::Trouble).is_empty(), "in row {n}");
}

#[test]
fn points_are_probed(rt: HostRuntime) {
    let mut rest = POINTS;
    let mut n = 0u32;
    let alloc = rt.alloc();
    while !rest.is_empty() {
        let (row, behind) = cut(rest, b'\n');
        n = n.wrapping_add(1);
        check_point(&rt, alloc, n, row);
        rest = behind;
    }
}
