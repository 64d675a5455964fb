//! Meshes: their files, and what is told of them.
ghost use Rattle.std.specs.Prelude.{◌≡◌};

use crate::rows::{can_stream, cut, desk_of, field, fits, text_of, words_as, words_of};
use desk_mem::MemDesk;
use st_base::{OpenGate, Port, Status};
use std::alloc::Global;
use std::process::Abort;
use std::thread::Threads;
use stuff::stuff;

// Words, head, samples, the nodes, the tetrahedra, and the report. A small mesh is streamed too, with the same answer.
const MESHES: &[u8] = b"\
mesh a out level=0.5 | MET_UCHAR 1 1 1 | 01 | 15 3 0 1;0 0.0000000000000 0.0000000000000 -0.5000000000000 1;1 -0.2857666015625 -0.2857666015625 -0.2857666015625 1;.. | 24 4 0;0 0 1 2 7;1 0 1 7 3;.. | nodes 15;tetrahedra 24;least +1/4 tetrahedron 0 edge 1 7;greatest 0/1 tetrahedron 0 edge 0 7;
mesh a out level=0.5 workers=1 slab=1 | MET_UCHAR 1 1 1 | 01 | same | same | same
mesh a out workers=2 level=0.5 slab=1 | MET_UCHAR 1 1 1 | 01 | same | same | same
mesh a out slab=1 workers=64 level=0.5 | MET_UCHAR 1 1 1 | 01 | same | same | same
stream a out workers=1 slab=1 level=0.5 | MET_UCHAR 1 1 1 | 01 | same | same | same
stream a out level=0.5 slab=1 workers=64 | MET_UCHAR 1 1 1 | 01 | same | same | same
mesh a out level=0.5 faces=yes | MET_UCHAR 1 1 1 | 01 | same | same | same
mesh a out workers=64 below=yes slab=1 level=-0.5 | MET_CHAR 1 1 1 | ff | same | same | same
mesh a out first=0 level=0.5 | MET_UCHAR 1 1 1 | 01 | ..;7 0.0000000000000 0.0000000000000 0.0000000000000 0;8 0.5000000000000 0.0000000000000 0.0000000000000 1; | 24 4 0;0 0 1 2 7;1 0 1 7 3;.. | nodes 15;tetrahedra 24;least +1/4 tetrahedron 0 edge 1 7;greatest 0/1 tetrahedron 0 edge 0 7;
mesh a out level=0.5 first=1 | MET_UCHAR 1 1 1 | 01 | 15 3 0 1;1 0.0000000000000 0.0000000000000 -0.5000000000000 1;.. | 24 4 0;1 1 2 3 8;2 1 2 8 4;.. | nodes 15;tetrahedra 24;least +1/4 tetrahedron 1 edge 2 8;greatest 0/1 tetrahedron 1 edge 1 8;
mesh a out level=0.5 units=world | NDims = 3;DimSize = 1 1 1;ElementType = MET_UCHAR;ElementSpacing = 0.5 0.5 2;Offset = 10 -20 0.25;ElementDataFile = LOCAL; | 01 | 15 3 0 1;0 10.0000000000000000000000000000000 -20.0000000000000000000000000000000 -0.7500000000000000000000000000000 1;1 9.8571166992187500000000000000000 -20.1428833007812500000000000000000 -0.3215332031250000000000000000000 1;.. | 24 4 0;0 0 1 2 7;1 0 1 7 3;.. | nodes 15;tetrahedra 24;least +1/4 tetrahedron 0 edge 1 7;greatest 0/1 tetrahedron 0 edge 0 7;
mesh a out level=0.5 units=world workers=1 | NDims = 3;DimSize = 1 1 1;ElementType = MET_UCHAR;ElementSpacing = 0.5 0.5 2;Offset = 10 -20 0.25;ElementDataFile = LOCAL; | 01 | ..;8 10.2500000000000000000000000000000 -20.0000000000000000000000000000000 0.2500000000000000000000000000000 1; | 24 4 0;0 0 1 2 7;1 0 1 7 3;.. | nodes 15;tetrahedra 24;least +1/4 tetrahedron 0 edge 1 7;greatest 0/1 tetrahedron 0 edge 0 7;
mesh a out units=world level=0.5 first=1 | NDims = 3;DimSize = 1 1 1;ElementType = MET_UCHAR;ElementSpacing = 0.5 0.5 2;Offset = 10 -20 0.25;ElementDataFile = LOCAL; | 01 | 15 3 0 1;1 10.0000000000000000000000000000000 -20.0000000000000000000000000000000 -0.7500000000000000000000000000000 1;2 9.8571166992187500000000000000000 -20.1428833007812500000000000000000 -0.3215332031250000000000000000000 1;.. | 24 4 0;1 1 2 3 8;2 1 2 8 4;.. | ..
mesh a out level=0.5 units=world step=2 | NDims = 3;DimSize = 3 1 1;ElementType = MET_UCHAR;ElementSpacing = 0.5 .25 2;Offset = 10 -20 +0.25;ElementDataFile = LOCAL; | 01 00 01 | 24 3 0 1;0 10.0000000000000000000000000000000 -20.0000000000000000000000000000000 -1.7500000000000000000000000000000 1;1 11.0000000000000000000000000000000 -20.0000000000000000000000000000000 -1.7500000000000000000000000000000 1;2 9.7142333984375000000000000000000 -20.1428833007812500000000000000000 -0.8930664062500000000000000000000 1;.. | 44 4 0;.. | nodes 24;tetrahedra 44;least +170233420306609/295318139426993 tetrahedron 5 edge 3 6;greatest -1863225/18640441 tetrahedron 4 edge 1 16;
mesh a out level=0.5 | NDims = 3;DimSize = 1 1 1;ElementType = MET_UCHAR;ElementSpacing = 0.5 0.5 2;Offset = 10 -20 0.25;ElementDataFile = LOCAL; | 01 | 15 3 0 1;0 0.0000000000000 0.0000000000000 -0.5000000000000 1;1 -0.2857666015625 -0.2857666015625 -0.2857666015625 1;.. | 24 4 0;0 0 1 2 7;1 0 1 7 3;.. | nodes 15;tetrahedra 24;least +1/4 tetrahedron 0 edge 1 7;greatest 0/1 tetrahedron 0 edge 0 7;
mesh a out level=0.5 units=index | NDims = 3;DimSize = 1 1 1;ElementType = MET_UCHAR;ElementSpacing = 0.5 0.5 2;Offset = 10 -20 0.25;ElementDataFile = LOCAL; | 01 | same | same | same
mesh a out level=0.5 | NDims = 3;DimSize = 1 1 1;ElementType = MET_UCHAR;Offset = 1e-3 0 0;ElementDataFile = LOCAL; | 01 | same | same | same
mesh a out level=1 | MET_UCHAR 1 1 1 | 01 | 0 3 0 1; | 0 4 0; | nodes 0;tetrahedra 0;no tetrahedra;
mesh a out level=0.5 long=0 short=0 | MET_SHORT 2 1 1 | 01 00 e0 b1 | same | same | same
mesh a out level=0.5 | MET_UCHAR 2 1 1 | 01 01 | 24 3 0 1;0 0.0000000000000 0.0000000000000 -0.5000000000000 1;1 1.0000000000000 0.0000000000000 -0.5000000000000 1;2 -0.2857666015625 -0.2857666015625 -0.2857666015625 1;3 0.3333740234375 -0.3333740234375 -0.3333740234375 1;4 1.2857666015625 -0.2857666015625 -0.2857666015625 1;.. | 44 4 0;.. | nodes 24;tetrahedra 44;least +170233420306609/295318139426993 tetrahedron 5 edge 3 6;greatest -1863225/18640441 tetrahedron 4 edge 1 16;
mesh a out level=0.5 workers=1 slab=1 | MET_UCHAR 2 1 1 | 01 01 | same | same | same
mesh a out level=0.5 workers=2 slab=1 | MET_UCHAR 2 1 1 | 01 01 | same | same | same
mesh a out level=0.5 workers=64 slab=1 | MET_UCHAR 2 1 1 | 01 01 | same | same | same
mesh a out level=0.5 step=2 | MET_UCHAR 3 1 1 | 01 00 01 | 24 3 0 1;0 0.0000000000000 0.0000000000000 -1.0000000000000 1;1 2.0000000000000 0.0000000000000 -1.0000000000000 1;2 -0.5715332031250 -0.5715332031250 -0.5715332031250 1;3 0.6667480468750 -0.6667480468750 -0.6667480468750 1;4 2.5715332031250 -0.5715332031250 -0.5715332031250 1;.. | same | same
mesh a out short=0 level=0.5 | MET_UCHAR 2 1 1 | 01 01 | 28 3 0 1;.. | 52 4 0;.. | nodes 28;tetrahedra 52;least +889627081664689/972986357703364 tetrahedron 14 edge 3 20;greatest -8388608/13049401 tetrahedron 14 edge 3 8;
mesh a out short=0 level=0.5 workers=1 slab=1 | MET_UCHAR 2 1 1 | 01 01 | same | same | same
mesh a out short=0 level=0.5 workers=2 slab=1 | MET_UCHAR 2 1 1 | 01 01 | same | same | same
mesh a out short=0 level=0.5 workers=64 slab=1 | MET_UCHAR 2 1 1 | 01 01 | same | same | same
mesh a out level=0.5 | MET_UCHAR 2 2 2 | 01*8 | 59 3 0 1;.. | 144 4 0;.. | nodes 59;tetrahedra 144;least +29822521/52197604 tetrahedron 21 edge 8 17;greatest -1863225/18640441 tetrahedron 4 edge 1 17;
mesh a out level=0.5 | MET_CHAR 2 2 2 | 02*4 fe*4 | .. 0.3750000000000 0.3750000000000 0.3750000000000 1; | .. | ..
mesh a out level=0.5 workers=1 | MET_CHAR 2 2 2 | 02*4 fe*4 | ! 0.5000000000000 0.5000000000000 0.5000000000000 | same | same
mesh a out level=-300 | MET_SHORT 64 64 64 | box | 75221 3 0 1;.. | 406248 4 0;.. | nodes 75221;tetrahedra 406248;least +..
stream a out level=-300 workers=2 slab=1 | MET_SHORT 64 64 64 | box | same | same | same
mesh a out level=-300 workers=3 | NDims = 3;DimSize = 64 64 64;ElementType = MET_SHORT;ElementByteOrderMSB = True;ElementDataFile = LOCAL; | turned box | same | same | same
mesh a out level=0.5 | MET_UCHAR 8192 1 1 | 01*8192 | .. | .. | nodes ..
demo size=1 seed=7 | | | | | plus 1 zero 0 minus 34;nodes 15;tetrahedra 24;least +1/4 tetrahedron 0 edge 1 7;greatest 0/1 tetrahedron 0 edge 0 7;
demo seed=0 size=1 workers=2 | | | | | same
demo size=2 seed=7 | | | | | plus 0 zero 0 minus 91;nodes 0;tetrahedra 0;no tetrahedra;
demo slab=1 seed=7 size=5 workers=8 | | | | | plus 31 zero 0 minus 528;nodes 69;tetrahedra 204;least +1790811356944/2109966516355 tetrahedron 125 edge 43 55;greatest -312987/1301540 tetrahedron 125 edge 31 43;
demo size=64 seed=7 | | | | | plus ..
demo size=64 seed=7 | | | | | same
demo size=64 seed=7 workers=8 slab=1 | | | | | same
demo size=128 seed=7 | | | | | plus ..
";

// Carries out a row, and compares; the desk is that of the row before.
fn check<R: Threads + Sync + Abort>(
    rt: &R,
    alloc: Global,
    n: u32,
    row: &[u8],
    before: &MemDesk,
) -> MemDesk {
    let (words, rest) = field(row);
    let (head, rest) = field(rest);
    let (samples, rest) = field(rest);
    let words = words_of(alloc, words).expect(rt, "memory");
    let mut desk = desk_of(alloc, head, samples).expect(rt, "memory");
    let outcome = stuff(rt, alloc, &words, &mut desk, &OpenGate);
    assert!(rt; outcome.status == Status::Done, "in row {n}");
    assert!(rt; outcome.trace.is_some(), "in row {n}");
    assert!(rt; desk.text(Port::Trouble).is_empty(), "in row {n}");
    let mut rest = rest;
    for port in [Port::Node, Port::Ele, Port::Report] {
        let (wanted, behind) = field(rest);
        let wanted = text_of(alloc, wanted).expect(rt, "memory");
        assert!(rt;
            fits(desk.text(port), &wanted, before.text(port)),
            "in row {n}"
        );
        rest = behind;
    }
    desk
}

// Streams the mesh of a row, and compares with what was written of it.
fn check_streamed<R: Threads + Sync + Abort>(
    rt: &R,
    alloc: Global,
    n: u32,
    row: &[u8],
    made: &MemDesk,
) {
    let (words, rest) = field(row);
    let (head, rest) = field(rest);
    let (samples, _) = field(rest);
    if !can_stream(words) || samples.ends_with(b"box") || samples.ends_with(b"8192") {
        return;
    }
    let words = words_as(alloc, words, true).expect(rt, "memory");
    let mut desk = desk_of(alloc, head, samples).expect(rt, "memory");
    let outcome = stuff(rt, alloc, &words, &mut desk, &OpenGate);
    assert!(rt; outcome.status == Status::Done, "in row {n}");
    assert!(rt; outcome.trace.is_some(), "in row {n}");
    for port in [Port::Node, Port::Ele, Port::Report, Port::Trouble] {
        assert!(rt; desk.text(port) == made.text(port), "in row {n}");
    }
}

#[test]
fn writes_meshes(rt: HostRuntime) {
    let mut rest = MESHES;
    let mut n = 0u32;
    let alloc = rt.alloc();
    let mut before = MemDesk::new(alloc);
    while !rest.is_empty() {
        let (row, behind) = cut(rest, b'\n');
        n = n.wrapping_add(1);
        before = check(&rt, alloc, n, row, &before);
        check_streamed(&rt, alloc, n, row, &before);
        rest = behind;
    }
}
