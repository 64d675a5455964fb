//! What the program does with its words, over files of the folder that the tests run in.
use desk_std::{StdDesk, System};
use program::carry_out;
use st_base::{Desk, Port};
use std::env::{Env, FillError};
use table_lines::{cut, field, number};

/// A volume of one sample of 1.
const ONE: &[u8] =
    b"ObjectType = Image\nNDims = 3\nDimSize = 1 1 1\nElementType = MET_UCHAR\nElementDataFile = LOCAL\n\x01";

/// The words of a command line, parted by blanks, behind the program's name.
#[derive(Drop)]
struct Line {
    text: &'static [u8],
}

impl Env for Line {
    fn arg(&self, n: usize, into: &mut [u8]) -> Result<usize, FillError> {
        let mut rest = self.text;
        for _ in 1..n {
            rest = cut(rest, b' ').1;
        }
        if n == 0 || rest.is_empty() {
            return Err(FillError::NotPresent);
        }
        let word = cut(rest, b' ').0;
        if word.len() > into.len() {
            return Err(FillError::TooLong);
        }
        into[..word.len()].copy_from_slice(word);
        Ok(word.len())
    }

    fn var(&self, _name: &str, _into: &mut [u8]) -> Result<usize, FillError> {
        Err(FillError::NotPresent)
    }

    fn var_at(&self, _n: usize, _into: &mut [u8]) -> Result<usize, FillError> {
        Err(FillError::NotPresent)
    }
}

// The words, the status, and how standard output and standard error begin; a semicolon stands for a newline, and
// where nothing is wanted nothing is there. `one.mha` and `in.node` hold the volume at first; later rows read what earlier
// ones wrote.
const LINES: &[u8] = b"\
--help | 0 | stuff: tetrahedral meshes of volumes, by isosurface stuffing;;  mesh IN OUT level=L |
--version | 0 | stuff 0.1.0; |
--help --help | 2 | | stuff: bad words at 0;
--version 1 | 2 | | stuff: bad words at 0;
help | 2 | | stuff: bad words at 0;
-h | 2 | | stuff: bad words at 0;
--Help | 2 | | stuff: bad words at 0;
--versio | 2 | | stuff: bad words at 0;
 | 2 | | stuff: bad words at 0;
audit --help | 7 | | stuff: read fault;
probe --help | 2 | | stuff: bad words at 2;
stream --version | 2 | | stuff: bad words at 2;
count one.mha | 2 | | stuff: bad words at 2;
count one.mha level=0.5 | 0 | plus 1 zero 0 minus 34; |
count one.mha level=0.5 step=1 below=yes | 0 | plus 0 zero 0 minus 35; |
count one.mha level=0.5 step=1 below=no | 2 | | stuff: bad words at 4;
count one.mha level=0.5 below=yes step=65 | 2 | | stuff: bad words at 4;
count none.mha level=0.5 | 7 | | stuff: read fault;
count \xff level=0.5 | 7 | | stuff: read fault;
mesh one.mha one level=0.5 workers=2 slab=1 | 0 | nodes 15;tetrahedra 24;least +1/4 tetrahedron 0 edge 1 7; |
mesh one.mha one level=0.5 first=1 units=world | 0 | nodes 15;tetrahedra 24;least +1/4 tetrahedron 1 edge 2 8; |
mesh one.mha one level=0.5 units=index first=2 | 2 | | stuff: bad words at 5;
mesh one.mha no/one level=0.5 | 8 | | stuff: write fault: node;
audit one | 0 | sound nodes 15 tetrahedra 24 boundary 24; |
mesh one.mha all level=0.5 faces=yes | 0 | nodes 15;tetrahedra 24;least +1/4 tetrahedron 0 edge 1 7; |
audit all | 0 | sound nodes 15 tetrahedra 24 boundary 24; |
count all.face level=0.5 | 3 | | stuff: bad header line at byte 0;
count all.neigh level=0.5 | 3 | | stuff: bad header line at byte 0;
stream one.mha other level=0.5 first=1 | 0 | nodes 15;tetrahedra 24;least +1/4 tetrahedron 1 edge 2 8; |
audit other | 0 | sound nodes 15 tetrahedra 24 boundary 24; |
stream one.mha other level=0.5 faces=yes | 2 | | stuff: bad words at 4;
probe one.mha at=0,0,-4096 level=0.5 | 0 | tetrahedron 0 weights 44894461952 0 0 0; |
probe one.mha level=0.5 at=0,0,-4097 | 0 | outside; |
audit in | 11 | | stuff: bad mesh file: node;
audit none | 7 | | stuff: read fault;
count one.node level=0.5 | 3 | | stuff: bad header line at byte 0;
count one.ele level=0.5 | 3 | | stuff: bad header line at byte 0;
count in.node level=0.5 | 0 | plus 1 zero 0 minus 34; |
mesh in.node in level=0.5 | 0 | nodes 15;tetrahedra 24;least +1/4 tetrahedron 0 edge 1 7; |
count in.node level=0.5 | 3 | | stuff: bad header line at byte 0;
";

// Whether a text begins so, and is empty where that is nothing.
fn begins(text: &[u8], wanted: &[u8]) -> bool {
    if wanted.is_empty() {
        return text.is_empty();
    }
    if text.len() < wanted.len() {
        return false;
    }
    let mut same = true;
    for (n, byte) in wanted.iter().enumerate() {
        if *byte == b';' {
            same = same && text[n] == b'\n';
        } else {
            same = same && text[n] == *byte;
        }
    }
    same
}

#[test]
fn carries_out_its_words(rt: HostRuntime) {
    let own = rt.clone().expect(&rt, "memory");
    let mut desk = StdDesk::new(System::new(own), rt.stdout(), rt.stderr());
    assert!(rt; desk.open_output(Port::Node, b"one.mha").is_ok());
    assert_eq!(rt; desk.write(Port::Node, ONE), Ok(ONE.len()));
    assert!(rt; desk.finish(Port::Node).is_ok());
    assert!(rt; desk.open_output(Port::Node, b"in.node").is_ok());
    assert_eq!(rt; desk.write(Port::Node, ONE), Ok(ONE.len()));
    assert!(rt; desk.finish(Port::Node).is_ok());
    for (n, row) in LINES
        .trim_ascii_end()
        .split(|byte| *byte == b'\n')
        .enumerate()
    {
        let (text, fields) = field(row);
        let (status, fields) = field(fields);
        let (report, trouble) = field(fields);
        let mut printed = Vec::new(rt.alloc());
        let mut told = Vec::new(rt.alloc());
        let own = rt.clone().expect(&rt, "memory");
        let ended = carry_out(
            &Line { text },
            &rt,
            rt.alloc(),
            System::new(own),
            &mut printed,
            &mut told,
        );
        assert_eq!(rt; u32::from(ended.code()), number(status), "in row {n}");
        assert!(rt; begins(&printed, report), "in row {n}");
        assert!(rt; begins(&told, trouble.trim_ascii()), "in row {n}");
    }
}
