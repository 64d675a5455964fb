//! What one line tells: counts of signs on Report, refusals on Trouble.
ghost use Rattle.std.specs.Prelude.{◌≡◌};

use crate::rows::{cut, desk_of, field, number, text_of, words_of};
use st_base::{OpenGate, Port};
use std::alloc::Global;
use std::process::Abort;
use std::thread::Threads;
use stuff::stuff;

// Words, head, samples, the status, and the line.
const LINES: &[u8] = b"\
count a level=0.5 | plain | 01 | 0 | plus 1 zero 0 minus 34
count a level=0.5 | MET_UCHAR 1 1 1 | 01 01 | 0 | plus 1 zero 0 minus 34
count a level=1 | MET_UCHAR 1 1 1 | 01 | 0 | plus 0 zero 1 minus 34
count a level=-0.5 below=yes | MET_CHAR 1 1 1 | ff | 0 | plus 1 zero 0 minus 34
count a level=0.5 | MET_UCHAR 2 1 1 | 01 01 | 0 | plus 2 zero 0 minus 46
count a step=2 level=0.5 | MET_UCHAR 3 1 1 | 01 00 01 | 0 | plus 2 zero 0 minus 46
count a level=0.5 | MET_SHORT 2 1 1 | 01 00 e0 b1 | 0 | plus 1 zero 0 minus 47
count a level=0.5 | MET_UCHAR 2 2 2 | 01*8 | 0 | plus 9 zero 6 minus 76
count a level=0.5 | MET_CHAR 2 2 2 | 02*4 fe*4 | 0 | plus 4 zero 1 minus 86
count a level=0.5 | MET_UCHAR 126 126 255 | 00*4048380 | 0 | plus 0 zero 0 minus 8339712
count a level=0.5 | MET_UCHAR 127 1 1 | 01*127 | 0 | plus 127 zero 0 minus 1546
count a level=0.5 | MET_UCHAR 8192 1 1 | 01*8192 | 0 | plus 8192 zero 0 minus 98326
count a level=0.5 | MET_UCHAR 1 8192 1 | 01*8192 | 0 | plus 8192 zero 0 minus 98326
count a level=0.5 | MET_UCHAR 1 1 8192 | 01*8192 | 0 | plus 8192 zero 0 minus 98326
count a level=-300 | MET_SHORT 64 64 64 | box | 0 | plus 62559 zero 0 minus 499562
count a level=-300 | NDims = 3;DimSize = 64 64 64;ElementType = MET_SHORT;ElementByteOrderMSB = True;ElementDataFile = LOCAL; | turned box | 0 | plus 62559 zero 0 minus 499562
count a level=0.5 | Comment = x^;ObjectType=Image^;NDims=3^;DimSize=1 1 1^;^;ElementType=MET_UCHAR^;ElementDataFile=LOCAL^; | 01 | 0 | plus 1 zero 0 minus 34
count a level=0.5 | ObjectType = Image;NDims = 3;NDims = 2;DimSize = 1~001 1;ElementType = MET_UCHAR;ElementDataFile = Local; | 01 | 0 | plus 1 zero 0 minus 34
 | | | 2 | stuff: bad words at 0
meet a | | | 2 | stuff: bad words at 0
mesh a | | | 2 | stuff: bad words at 2
mesh a out level=1 level=2 | | | 2 | stuff: bad words at 4
mesh a out level=0.5 first=2 | | | 2 | stuff: bad words at 4
stream a out level=0.5 faces=yes | | | 2 | stuff: bad words at 4
mesh a out level=0.5 faces=no | | | 2 | stuff: bad words at 4
mesh a out level=0.5 faces=yes faces=yes | | | 2 | stuff: bad words at 5
stream a | | | 2 | stuff: bad words at 2
audit | | | 2 | stuff: bad words at 1
audit a b | | | 2 | stuff: bad words at 2
audit a level=1 | | | 2 | stuff: bad words at 2
probe a | | | 2 | stuff: bad words at 2
probe a level=1 | | | 2 | stuff: bad words at 3
probe a at=0,0,0 | | | 2 | stuff: bad words at 3
probe a level=1 at=0,0 | | | 2 | stuff: bad words at 3
probe a level=1 at=0,0,1099511627776 | | | 2 | stuff: bad words at 3
mesh a out level=0.5 units=mm | | | 2 | stuff: bad words at 4
count a level=0.5 units=world | | | 2 | stuff: bad words at 3
demo size=2 seed=7 first=1 | | | 2 | stuff: bad words at 3
demo size=129 seed=7 | | | 2 | stuff: bad words at 1
demo seed=7 | | | 2 | stuff: bad words at 2
count _ | | | 2 | stuff: bad words at 1
count one.mha | | | 2 | stuff: bad words at 2
count a level=1.25 | | | 2 | stuff: bad words at 2
count a level=4294967296 | | | 2 | stuff: bad words at 2
count a level=00 | | | 2 | stuff: bad words at 2
count one.mha level=0.5 x | | | 2 | stuff: bad words at 3
count a level=1 level=2 | | | 2 | stuff: bad words at 3
count a below=yes step=65 | | | 2 | stuff: bad words at 3
count a step=1 below=no | | | 2 | stuff: bad words at 3
count a step=64 below=yes | | | 2 | stuff: bad words at 4
count a level=0.5 | ObjectType = Image;hello; | | 3 | stuff: bad header line at byte 19
count a level=0.5 | = x; | | 3 | stuff: bad header line at byte 0
count a level=0.5 | hello | | 3 | stuff: header ends early
count a level=0.5 | | | 3 | stuff: header ends early
count a level=0.5 | NDims = 3;DimSize = 1 1 1;ElementType = MET_UCHAR;ElementDataFile = LOCAL | | 3 | stuff: header ends early
count a level=0.5 | A= | 78*65533 | 3 | stuff: header ends early
count a level=0.5 | A= | 78*65534 | 3 | stuff: header too long
count a level=0.5 | A= | 78*65535 | 3 | stuff: header too long
count a level=0.5 | ElementDataFile = LOCAL; | | 3 | stuff: header key missing: NDims
count a level=0.5 | NDims = 3;ElementDataFile = LOCAL; | | 3 | stuff: header key missing: DimSize
count a level=0.5 | NDims = 3;DimSize = 1 1 1;ElementDataFile = LOCAL; | | 3 | stuff: header key missing: ElementType
count a level=0.5 | ObjectType =;ElementDataFile = LOCAL; | | 3 | stuff: bad header value: ObjectType
count a level=0.5 | NDims = 0;ElementDataFile = LOCAL; | | 3 | stuff: bad header value: NDims
count a level=0.5 | NDims = 3;ElementNumberOfChannels = x;ElementDataFile = LOCAL; | | 3 | stuff: bad header value: ElementNumberOfChannels
count a level=0.5 | NDims = 3;DimSize = 0 1 1;ElementDataFile = LOCAL; | | 3 | stuff: bad header value: DimSize
count a level=0.5 | NDims = 3;DimSize = 1 1;ElementDataFile = LOCAL; | | 3 | stuff: bad header value: DimSize
count a level=0.5 | NDims = 3;DimSize = 1 1 1 1;ElementDataFile = LOCAL; | | 3 | stuff: bad header value: DimSize
count a level=0.5 | NDims = 3;DimSize = 1000000000 1 1;ElementDataFile = LOCAL; | | 3 | stuff: bad header value: DimSize
count a level=0.5 | NDims = 3;DimSize = 1 1 1;ElementType =;ElementDataFile = LOCAL; | | 3 | stuff: bad header value: ElementType
count a level=0.5 | NDims = 3;CompressedData = True;DimSize = 1 1 1;ElementType =;ElementDataFile = LOCAL; | | 3 | stuff: bad header value: ElementType
count a level=0.5 | NDims = 3;DimSize = 1 1 1;ElementType = MET_UCHAR;ElementDataFile =; | | 3 | stuff: bad header value: ElementDataFile
mesh a out level=0.5 units=world | NDims = 3;DimSize = 1 1 1;ElementType = MET_UCHAR;ElementSpacing = 1 1;ElementDataFile = LOCAL; | | 3 | stuff: bad header value: ElementSpacing
mesh a out level=0.5 units=world | NDims = 3;DimSize = 1 1 1;ElementType = MET_UCHAR;ElementSpacing = 1 1 x;Offset = 0 0;ElementDataFile = LOCAL; | | 3 | stuff: bad header value: ElementSpacing
mesh a out level=0.5 units=world | NDims = 3;DimSize = 1 1 1;ElementType = MET_UCHAR;Offset = 0 0;ElementSpacing = 0 1 1;ElementDataFile = LOCAL; | | 3 | stuff: bad header value: Offset
count a level=0.5 | ObjectType = Tube;NDims = 2;DimSize = 1 1;ElementType = MET_UCHAR;ElementDataFile = LOCAL; | | 4 | stuff: unsupported: ObjectType
count a level=0.5 | NDims = 2;DimSize = 1 1;ElementType = MET_UCHAR;ElementDataFile = LOCAL; | | 4 | stuff: unsupported: NDims
count a level=0.5 | NDims = 3;BinaryData = False;DimSize = 1 1 1;ElementType = MET_UCHAR;ElementDataFile = LOCAL; | | 4 | stuff: unsupported: BinaryData
count a level=0.5 | NDims = 3;BinaryData = False;ElementNumberOfChannels = 3;DimSize = 1 1 1;ElementType = MET_UCHAR;ElementDataFile = LOCAL; | | 4 | stuff: unsupported: BinaryData
count a level=0.5 | NDims = 3;CompressedData = True;DimSize = 1 1 1;ElementType = MET_UCHAR;ElementDataFile = LOCAL; | | 4 | stuff: unsupported: CompressedData
count a level=0.5 | NDims = 3;ElementNumberOfChannels = 3;DimSize = 1 1 1;ElementType = MET_UCHAR;ElementDataFile = LOCAL; | | 4 | stuff: unsupported: ElementNumberOfChannels
count a level=0.5 | NDims = 3;DimSize = 1 1 1;ElementType = MET_FLOAT;ElementDataFile = LOCAL; | | 4 | stuff: unsupported: ElementType
count a level=0.5 | NDims = 3;DimSize = 1 1 1;ElementType = MET_UCHAR;ElementDataFile = one.raw; | | 4 | stuff: unsupported: ElementDataFile
mesh a out level=0.5 units=world | NDims = 3;DimSize = 1 1 1;ElementType = MET_UCHAR;ElementSpacing = 0 1 1;ElementDataFile = LOCAL; | | 4 | stuff: unsupported: ElementSpacing
mesh a out level=0.5 units=world | NDims = 3;DimSize = 1 1 1;ElementType = MET_UCHAR;Offset = 1e-3 0 0;ElementDataFile = LOCAL; | | 4 | stuff: unsupported: Offset
count a level=0.5 | MET_UCHAR 254 510 511 | | 5 | stuff: too large: 67239936
count a level=0.5 | MET_INT 8193 1 1 | | 5 | stuff: too large: 73755
count a level=0.5 | MET_UCHAR 999999999 999999999 999999999 | | 5 | stuff: too large: 1000000003000000003000000001
count a step=64 level=0.5 | MET_UINT 8192 8192 8192 | | 6 | stuff: truncated: 0 of 2199023255552 bytes
count a level=0.5 | plain | | 6 | stuff: truncated: 0 of 1 bytes
mesh a out level=0.5 | MET_UCHAR 2 1 1 | 01 | 6 | stuff: truncated: 1 of 2 bytes
count a level=0.5 | MET_SHORT 64 64 64 | 01*524287 | 6 | stuff: truncated: 524287 of 524288 bytes
count b level=0.5 | plain | 01 | 7 | stuff: read fault
stream b out level=0.5 | plain | 01 | 7 | stuff: read fault
audit a | plain | 01 | 7 | stuff: read fault
probe b level=0.5 at=0,0,0 | plain | 01 | 7 | stuff: read fault
probe a level=0.5 at=0,0,0 | MET_UCHAR 2 1 1 | 01 | 6 | stuff: truncated: 1 of 2 bytes
";

// Carries out a row, and compares.
fn check<R: Threads + Sync + Abort>(rt: &R, alloc: Global, n: u32, row: &[u8]) {
    let (words, rest) = field(row);
    let (head, rest) = field(rest);
    let (samples, rest) = field(rest);
    let (status, rest) = field(rest);
    let mut line = text_of(alloc, rest.trim_ascii()).expect(rt, "memory");
    line.push(b'\n').expect(rt, "memory");
    let words = words_of(alloc, words).expect(rt, "memory");
    let mut desk = desk_of(alloc, head, samples).expect(rt, "memory");
    let outcome = stuff(rt, alloc, &words, &mut desk, &OpenGate);
    assert_eq!(rt;
        u64::from(outcome.status.code()),
        number(status),
        "in row {n}"
    );
    assert!(rt; outcome.trace.is_none(), "in row {n}");
    let (told, quiet) = if number(status) == 0 {
        (Port::Report, Port::Trouble)
    } else {
        (Port::Trouble, Port::Report)
    };
    assert!(rt; desk.text(told) == line.as_slice(), "in row {n}");
    for port in [quiet, Port::Node, Port::Ele, Port::Face, Port::Neigh] {
        assert!(rt; desk.text(port).is_empty(), "in row {n}");
    }
}

#[test]
fn tells_one_line(rt: HostRuntime) {
    let mut rest = LINES;
    let mut n = 0u32;
    let alloc = rt.alloc();
    while !rest.is_empty() {
        let (row, behind) = cut(rest, b'\n');
        n = n.wrapping_add(1);
        check(&rt, alloc, n, row);
        rest = behind;
    }
}
