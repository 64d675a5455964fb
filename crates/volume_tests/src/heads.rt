//! Heads whose coordinates are in the volume's own units, and the same heads in index units.

use crate::rows::field;
use desk_mem::MemDesk;
use mha_read::read_head;
use st_base::{Axis, Desk, Head, HeadFault};
use std::alloc::{AllocError, Global};

// Lines of a head of one sample, and the answer in the volume's own units: the spacing and the offset on
// each axis, in units of 10^-18, or why the head is refused.
const IN_OWN_UNITS: &str = " | 1000000000000000000 0, 1000000000000000000 0, 1000000000000000000 0
ElementSpacing = 0.5 0.5 2; Offset = 10 -20 0.25 | 500000000000000000 10000000000000000000, 500000000000000000 -20000000000000000000, 2000000000000000000 250000000000000000
ElementSpacing =  2\t+3   4. | 2000000000000000000 0, 3000000000000000000 0, 4000000000000000000 0
Offset = +.5 5. -0 | 1000000000000000000 500000000000000000, 1000000000000000000 5000000000000000000, 1000000000000000000 0
Offset = 0.000000000000000001 -.5 00000000000000000001 | 1000000000000000000 1, 1000000000000000000 -500000000000000000, 1000000000000000000 1000000000000000000
ElementSpacing = 999.999999999999999999 0.000000000000000001 1000 | Unsupported Spacing
ElementSpacing = 999.999999999999999999 0.000000000000000001 1 | 999999999999999999999 0, 1 0, 1000000000000000000 0
Offset = 999999.999999999999999999 -999999.999999999999999999 0 | 1000000000000000000 999999999999999999999999, 1000000000000000000 -999999999999999999999999, 1000000000000000000 0
Offset = 0 1000000 0 | Unsupported Offset
Offset = 0 0 -1000000 | Unsupported Offset
Offset = 1e-3 0 0 | Unsupported Offset
Offset = 1.0000000000000000000 0 0 | Unsupported Offset
ElementSpacing = 0 1 1 | Unsupported Spacing
ElementSpacing = 1 1 -1 | Unsupported Spacing
ElementSpacing = 1 1000 1 | Unsupported Spacing
ElementSpacing = 1 1e2 1 | Unsupported Spacing
ElementSpacing = 1 1 | BadValue Spacing
ElementSpacing = 1 1 1 1 | BadValue Spacing
ElementSpacing = | BadValue Spacing
ElementSpacing = . 1 1 | BadValue Spacing
Offset = --1 0 0 | BadValue Offset
Offset = 1e 0 0 | BadValue Offset
Offset = 1.0.0 0 0 | BadValue Offset
Offset = 0,0 0 0 | BadValue Offset
Offset = x 0 0; ElementSpacing = 0 1 1 | BadValue Offset
Offset = 1e6 0 0; ElementSpacing = 0 1 1 | Unsupported Spacing
Offset = 1 2 3; Offset = x | 1000000000000000000 1000000000000000000, 1000000000000000000 2000000000000000000, 1000000000000000000 3000000000000000000
offset = x; Spacing = 2 2 2 | 1000000000000000000 0, 1000000000000000000 0, 1000000000000000000 0";

// Lines of a head of two dimensions, and the answers in the volume's own units and in index units.
const TWO_DIMENSIONS: &str = "ElementSpacing = 1 1 | Unsupported NDims | Unsupported NDims
ElementSpacing = 1 1 1 | BadValue Spacing | Unsupported NDims
Offset = 0 | BadValue Offset | Unsupported NDims";

const UNITS: &str = "1000000000000000000 0, 1000000000000000000 0, 1000000000000000000 0";

// What is read of a head with some lines before its data line.
fn head_with(
    alloc: Global,
    sizes: &str,
    lines: &str,
    world: bool,
) -> Result<Result<Head, HeadFault>, AllocError> {
    let mut text = Vec::new(alloc);
    text.extend_from_slice(sizes.as_bytes())?;
    for line in lines.split(';') {
        text.extend_from_slice(line.trim().as_bytes())?;
        text.push(b'\n')?;
    }
    text.extend_from_slice(b"ElementType = MET_UCHAR\nElementDataFile = LOCAL\n")?;
    let mut desk = MemDesk::new(alloc);
    if desk.put_input(b"a", &text).is_err() || desk.open_input(b"a").is_err() {
        return Ok(Err(HeadFault::NoMemory));
    }
    Ok(read_head(alloc, &mut desk, world))
}

fn shown_axis(alloc: Global, axis: &Axis) -> Result<String, AllocError> {
    format!(in alloc; "{} {}", axis.spacing, axis.offset)
}

fn shown(alloc: Global, head: &Result<Head, HeadFault>) -> Result<String, AllocError> {
    match head {
        Ok(head) => {
            let [x, y, z] = &head.axes;
            let (x, y, z) = (
                shown_axis(alloc, x)?,
                shown_axis(alloc, y)?,
                shown_axis(alloc, z)?,
            );
            format!(in alloc; "{x}, {y}, {z}")
        }
        Err(HeadFault::BadValue { key }) => format!(in alloc; "BadValue {key:?}"),
        Err(HeadFault::Unsupported { key }) => format!(in alloc; "Unsupported {key:?}"),
        Err(fault) => format!(in alloc; "{fault:?}"),
    }
}

#[test]
fn own_units(rt: HostRuntime) {
    let alloc = rt.alloc();
    for row in IN_OWN_UNITS.lines() {
        let (lines, wanted) = field(row);
        for (world, answer) in [(true, wanted), (false, UNITS)] {
            let head = head_with(alloc, "NDims = 3\nDimSize = 1 1 1\n", lines, world);
            let head = head.expect(&rt, "memory");
            let text = shown(alloc, &head).expect(&rt, "memory");
            assert_eq!(rt; text.as_str(), answer, "of {row}");
        }
    }
}

#[test]
fn two_dimensions(rt: HostRuntime) {
    let alloc = rt.alloc();
    for row in TWO_DIMENSIONS.lines() {
        let (lines, rest) = field(row);
        let (own, index) = field(rest);
        for (world, answer) in [(true, own), (false, index)] {
            let head = head_with(alloc, "NDims = 2\nDimSize = 3 4\n", lines, world);
            let head = head.expect(&rt, "memory");
            let text = shown(alloc, &head).expect(&rt, "memory");
            assert_eq!(rt; text.as_str(), answer, "of {row}");
        }
    }
}
