//! What is made of words and files, with no desk in sight.

use crate::ports::{EVERY, NODES, TETRAHEDRA, wanted_of};
use crate::rows::{cut, field, fits, input_of, number, text_of, words_of};
use meshed::{Answer, File, meshed};
use st_base::Port;
use std::alloc::{AllocError, Global};
use std::process::Abort;
use std::thread::Threads;

// Words, head, samples, the status, how many files are made, Node, Ele, Face, Neigh, the report, and the line of trouble.
// The input is named `a`, and a second file of that name is passed over; a.node and a.ele are those of one sample above
// the level, and of b.node there is no b.ele.
const ANSWERS: &[u8] = b"\
mesh a out level=0.5 | plain | 01 | 0 | 2 | whole | whole | | | whole |
mesh a out level=0.5 first=1 units=world | NDims = 3;DimSize = 1 1 1;ElementType = MET_UCHAR;ElementSpacing = 0.5 0.5 2;Offset = 10 -20 0.25;ElementDataFile = LOCAL; | 01 | 0 | 2 | 15 3 0 1;1 10.0000000000000000000000000000000 -20.0000000000000000000000000000000 -0.7500000000000000000000000000000 1;.. | 24 4 0;1 1 2 3 8;2 1 2 8 4;.. | | | nodes 15;tetrahedra 24;least +1/4 tetrahedron 1 edge 2 8;greatest 0/1 tetrahedron 1 edge 1 8; |
mesh a out level=1 | plain | 01 | 0 | 2 | 0 3 0 1; | 0 4 0; | | | nodes 0;tetrahedra 0;no tetrahedra; |
mesh a out level=0.5 faces=yes | plain | 01 | 0 | 4 | whole | whole | whole | whole | whole |
mesh a out level=1 faces=yes | plain | 01 | 0 | 4 | 0 3 0 1; | 0 4 0; | 0 0; | 0 4; | nodes 0;tetrahedra 0;no tetrahedra; |
stream a out level=0.5 | plain | 01 | 0 | 2 | whole | whole | | | whole |
count a level=0.5 | plain | 01 | 0 | 0 | | | | | plus 1 zero 0 minus 34; |
probe a level=0.5 at=0,0,-4096 | plain | 01 | 0 | 0 | | | | | tetrahedron 0 weights 44894461952 0 0 0; |
audit a | plain | 01 | 0 | 0 | | | | | sound nodes 15 tetrahedra 24 boundary 24; |
demo size=2 seed=7 | plain | 01 | 0 | 0 | | | | | plus 0 zero 0 minus 91;nodes 0;tetrahedra 0;no tetrahedra; |
mesh a out | plain | 01 | 2 | 0 | | | | | | stuff: bad words at 3;
mesh a out level=0.5 | MET_UCHAR 2 1 1 | 01 | 6 | 0 | | | | | | stuff: truncated: 1 of 2 bytes;
mesh a out level=0.5 units=world | NDims = 3;DimSize = 1 1 1;ElementType = MET_UCHAR;ElementSpacing = 1000 1 1;ElementDataFile = LOCAL; | 01 | 4 | 0 | | | | | | stuff: unsupported: ElementSpacing;
mesh b out level=0.5 | plain | 01 | 7 | 0 | | | | | | stuff: read fault;
audit b | plain | 01 | 7 | 0 | | | | | | stuff: read fault;
audit c | plain | 01 | 7 | 0 | | | | | | stuff: read fault;
audit d | plain | 01 | 11 | 0 | | | | | | stuff: bad mesh file: node;
";

// A file.
fn file_of(alloc: Global, name: &[u8], bytes: &[u8]) -> Result<File, AllocError> {
    let name = name.to_vec(alloc)?;
    let bytes = bytes.to_vec(alloc)?;
    Ok(File { name, bytes })
}

// The bytes of the first file of a name that ends so; without one, none.
fn bytes_of<'a>(files: &'a [File], end: &[u8]) -> &'a [u8] {
    for file in files {
        if file.name.ends_with(end) {
            return &file.bytes;
        }
    }
    b""
}

// What was made of each port, and what is told of it.
fn text_at(answer: &Answer, port: Port) -> &[u8] {
    match port {
        Port::Node => bytes_of(&answer.files, b"out.node"),
        Port::Ele => bytes_of(&answer.files, b"out.ele"),
        Port::Face => bytes_of(&answer.files, b"out.face"),
        Port::Neigh => bytes_of(&answer.files, b"out.neigh"),
        Port::Report => &answer.report,
        Port::Trouble => &answer.trouble,
    }
}

// Carries out a row, and compares.
fn check<R: Threads + Sync + Abort>(rt: &R, alloc: Global, n: u32, row: &[u8]) {
    let (words, rest) = field(row);
    let (head, rest) = field(rest);
    let (samples, rest) = field(rest);
    let (status, rest) = field(rest);
    let (count, rest) = field(rest);
    let words = words_of(alloc, words).expect(rt, "memory");
    let input = input_of(alloc, head, samples).expect(rt, "memory");
    let files = [
        file_of(alloc, b"a", &input).expect(rt, "memory"),
        file_of(alloc, b"a", b"").expect(rt, "memory"),
        file_of(alloc, b"a.node", NODES).expect(rt, "memory"),
        file_of(alloc, b"a.ele", TETRAHEDRA).expect(rt, "memory"),
        file_of(alloc, b"b.node", NODES).expect(rt, "memory"),
        file_of(alloc, b"d.node", b"").expect(rt, "memory"),
        file_of(alloc, b"d.ele", TETRAHEDRA).expect(rt, "memory"),
    ];
    let answer = meshed(rt, alloc, &words, &files);
    assert_eq!(rt;
        u64::from(answer.status.code()),
        number(status),
        "in row {n}"
    );
    assert_eq!(rt; answer.files.len() as u64, number(count), "in row {n}");
    let mut rest = rest;
    for port in EVERY {
        let (wanted, behind) = field(rest);
        let wanted = text_of(alloc, wanted).expect(rt, "memory");
        assert!(rt;
            fits(text_at(&answer, port), wanted_of(port, &wanted), b""),
            "in row {n}"
        );
        rest = behind;
    }
}

#[test]
fn makes_files_of_words_and_files(rt: HostRuntime) {
    let mut rest = ANSWERS;
    let mut n = 0u32;
    let alloc = rt.alloc();
    while !rest.is_empty() {
        let (row, behind) = cut(rest, b'\n');
        n = n.wrapping_add(1);
        check(&rt, alloc, n, row);
        rest = behind;
    }
}

// A mesh is made, and its files are given to an audit as they are.
#[test]
fn files_that_are_made_are_sound(rt: HostRuntime) {
    let alloc = rt.alloc();
    let input = input_of(alloc, b"MET_UCHAR 2 2 2", b"01*7 00").expect(&rt, "memory");
    let files = [file_of(alloc, b"a", &input).expect(&rt, "memory")];
    let words = words_of(alloc, b"mesh a out level=0.5 faces=yes").expect(&rt, "memory");
    let made = meshed(&rt, alloc, &words, &files);
    let words = words_of(alloc, b"audit out").expect(&rt, "memory");
    let judged = meshed(&rt, alloc, &words, &made.files);
    assert!(&rt; judged.report.starts_with(b"sound nodes "));
    assert!(&rt; judged.trouble.is_empty());
}
