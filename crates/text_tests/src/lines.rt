ghost use Rattle.std.specs.Prelude.{◌+◌, ◌^◌, ◌<◌};
ghost use Rattle.node_ele_write.specs.Printable.{IsPrintable};

use definitions::{Cosine, Extreme, Extremes};
use node_ele_write::{Pen, coordinate_text, ele_line, node_line, report_text, world_text};
use st_base::{Axis, Frame, NoMemory, Place};
use std::alloc::Global;

const INDEX: Frame = Frame {
    step: 1,
    world: None,
};

// Spacings 0.5, 0.5 and 2, and offsets 10, -20 and 0.25.
const OWN: Frame = Frame {
    step: 1,
    world: Some([
        Axis {
            spacing: 500_000_000_000_000_000,
            offset: 10_000_000_000_000_000_000,
        },
        Axis {
            spacing: 500_000_000_000_000_000,
            offset: -20_000_000_000_000_000_000,
        },
        Axis {
            spacing: 2_000_000_000_000_000_000,
            offset: 250_000_000_000_000_000,
        },
    ]),
};

// The number of a vertex, and those of seven others, from 0.
const OWN_NUMBER: u32 = 6;

const OTHERS: [u32; 7] = [9, 65_535, 65_542, 99, 1000, 4_294_967_294, 0];

const ORIGIN: Place = Place { x: 0, y: 0, z: 0 };

const FIRST: Place = Place {
    x: 0,
    y: 0,
    z: -4096,
};

const SECOND: Place = Place {
    x: -2341,
    y: -2341,
    z: -2341,
};

#[test]
fn writes_lines(rt: HostRuntime) -> Result<(), NoMemory> {
    let mut out = Vec::new(rt.alloc());
    coordinate_text(&mut out, -1)?;
    assert_eq!(rt; out.as_slice(), b"-0.0001220703125".as_slice());
    out.clear();
    let place = Place {
        x: -2341,
        y: 2341,
        z: 0,
    };
    node_line(&mut out, 1, place, INDEX, true)?;
    assert_eq!(rt;
        out.as_slice(),
        b"1 -0.2857666015625 0.2857666015625 0.0000000000000 1\n".as_slice()
    );
    out.clear();
    ele_line(&mut out, 23, [7, 12, 14, 13])?;
    assert_eq!(rt; out.as_slice(), b"23 7 12 14 13\n".as_slice());
    Ok(())
}

// The line of a node, by a pen.
fn penned(
    alloc: Global,
    number: u32,
    place: Place,
    frame: Frame,
    level: bool,
) -> Result<Vec<u8>, NoMemory>
    requires { IsPrintable frame place }
{
    let mut pen = Pen::new(alloc)?;
    let mut out = Vec::new(alloc);
    pen.node_line(&mut out, number, place, &frame, level)?;
    Ok(out)
}

#[test]
fn pen_writes_lines(rt: HostRuntime) -> Result<(), NoMemory> {
    let index = penned(rt.alloc(), 7, ORIGIN, INDEX, false)?;
    assert_eq!(rt;
        index.as_slice(),
        b"7 0.0000000000000 0.0000000000000 0.0000000000000 0\n".as_slice()
    );
    let first = penned(rt.alloc(), 0, FIRST, OWN, true)?;
    assert_eq!(rt;
        first.as_slice(),
        b"0 10.0000000000000000000000000000000 -20.0000000000000000000000000000000 -0.7500000000000000000000000000000 1\n".as_slice()
    );
    let second = penned(rt.alloc(), 1, SECOND, OWN, true)?;
    assert_eq!(rt;
        second.as_slice(),
        b"1 9.8571166992187500000000000000000 -20.1428833007812500000000000000000 -0.3215332031250000000000000000000 1\n".as_slice()
    );
    Ok(())
}

// The lines of the six tetrahedra round a vertex, at once and one after another. Its text and that of another are held in
// one place.
fn star_lines(alloc: Global, number: u64) -> Result<(Vec<u8>, Vec<u8>), NoMemory>
    requires { number + 6 < 2 ^ 64 }
{
    let [a, b, c, d, e, f, g] = OTHERS;
    let tets = [
        [OWN_NUMBER, a, f, d],
        [OWN_NUMBER, b, e, f],
        [OWN_NUMBER, c, d, g],
        [OWN_NUMBER, c, g, e],
        [OWN_NUMBER, d, f, g],
        [OWN_NUMBER, e, g, f],
    ];
    let mut pen = Pen::new(alloc)?;
    let mut star = Vec::new(alloc);
    pen.star_lines(&mut star, number, 1, OWN_NUMBER, &OTHERS)?;
    let mut lines = Vec::new(alloc);
    pen.ele_lines(&mut lines, number, 1, &tets)?;
    Ok((star, lines))
}

#[test]
fn pen_writes_stars(rt: HostRuntime) -> Result<(), NoMemory> {
    let (star, lines) = star_lines(rt.alloc(), 9)?;
    assert_eq!(rt;
        star.as_slice(),
        b"9 7 10 4294967295 100\n10 7 65536 1001 4294967295\n11 7 65543 100 1\n12 7 65543 1 1001\n13 7 100 4294967295 1\n14 7 1001 1 4294967295\n".as_slice()
    );
    assert_eq!(rt; star.as_slice(), lines.as_slice());
    let (star, lines) = star_lines(rt.alloc(), 99)?;
    assert_eq!(rt; star.as_slice(), lines.as_slice());
    let (star, lines) = star_lines(rt.alloc(), 4_294_967_290)?;
    assert_eq!(rt; star.as_slice(), lines.as_slice());
    let (star, lines) = star_lines(rt.alloc(), 18_446_744_073_709_551_609)?;
    assert_eq!(rt; star.as_slice(), lines.as_slice());
    Ok(())
}

#[test]
fn writes_own_units(rt: HostRuntime) -> Result<(), NoMemory> {
    let mut out = Vec::new(rt.alloc());
    world_text(&mut out, 0)?;
    assert_eq!(rt;
        out.as_slice(),
        b"0.0000000000000000000000000000000".as_slice()
    );
    out.clear();
    world_text(&mut out, -1)?;
    assert_eq!(rt;
        out.as_slice(),
        b"-0.0000000000000000000000000000001".as_slice()
    );
    out.clear();
    world_text(&mut out, 99_999_999_999_999_999_999_999_999_999_999_999_999)?;
    assert_eq!(rt;
        out.as_slice(),
        b"9999999.9999999999999999999999999999999".as_slice()
    );
    out.clear();
    world_text(
        &mut out,
        -99_999_999_999_999_999_999_999_999_999_999_999_999,
    )?;
    assert_eq!(rt;
        out.as_slice(),
        b"-9999999.9999999999999999999999999999999".as_slice()
    );
    Ok(())
}

// An angle whose cosine has a square of a half, with a sign.
fn angle(sign: i8, tet: u64) -> Extreme {
    Extreme {
        cosine: Cosine {
            sign,
            num: 1,
            den: 2,
        },
        tet,
        ends: [3, 9],
    }
}

#[test]
fn reports(rt: HostRuntime) -> Result<(), NoMemory> {
    let found = Extremes {
        least: angle(1, 10),
        greatest: angle(-1, 0),
    };
    let report = report_text(rt.alloc(), 15, 24, Some(found), 0)?;
    assert_eq!(rt;
        report.as_slice(),
        b"nodes 15\ntetrahedra 24\nleast +1/2 tetrahedron 10 edge 3 9\ngreatest -1/2 tetrahedron 0 edge 3 9\n".as_slice()
    );
    let one_more = report_text(rt.alloc(), 15, 24, Some(found), 1)?;
    assert_eq!(rt;
        one_more.as_slice(),
        b"nodes 15\ntetrahedra 24\nleast +1/2 tetrahedron 11 edge 4 10\ngreatest -1/2 tetrahedron 1 edge 4 10\n".as_slice()
    );
    let empty = report_text(rt.alloc(), 0, 0, None, 1)?;
    assert_eq!(rt;
        empty.as_slice(),
        b"nodes 0\ntetrahedra 0\nno tetrahedra\n".as_slice()
    );
    Ok(())
}
