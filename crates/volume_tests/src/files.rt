//! Volumes that are read from files, and written as files.
ghost use Rattle.std.specs.Prelude.{◌≡◌, ◌≤◌, IfOk, true};
ghost use Rattle.desk_mem.specs.Meanings.{mem_input};

use crate::rows::{add_bytes, field, number};
use desk_mem::MemDesk;
use mha_read::{VolFault, read_head, read_volume};
use mha_write::mha_text;
use phantom::phantom;
use st_base::{Desk, Limits, Volume};
use std::alloc::{AllocError, Global};

// The lines of a written file up to its sizes.
const FRONT: &str = "ObjectType = Image
NDims = 3
BinaryData = True
BinaryDataByteOrderMSB = False
CompressedData = False
TransformMatrix = 1 0 0 0 1 0 0 0 1
Offset = 0 0 0
CenterOfRotation = 0 0 0
AnatomicalOrientation = RAI
ElementSpacing = 1 1 1
DimSize = ";

// A step, the sizes, the type, whether the most significant byte is first, and the samples; and how many bytes the
// file has that is written of it, its sizes, its type, and its samples with the least significant byte first.
const FILES: &str = "1 | 1 1 1 | MET_UCHAR | False | 01 | 293 | 1 1 1 | MET_UCHAR | 01
1 | 1 1 1 | MET_UCHAR | True | ff | 293 | 1 1 1 | MET_UCHAR | ff
1 | 2 1 1 | MET_CHAR | False | ff 7f | 293 | 2 1 1 | MET_CHAR | ff 7f
1 | 1 2 1 | MET_USHORT | True | ff ff 01 00 | 297 | 1 2 1 | MET_USHORT | ff ff 00 01
1 | 1 1 2 | MET_SHORT | True | ff fe 80 00 | 296 | 1 1 2 | MET_SHORT | fe ff 00 80
1 | 1 1 2 | MET_SHORT | False | fe ff 00 80 | 296 | 1 1 2 | MET_SHORT | fe ff 00 80
1 | 1 1 1 | MET_UINT | True | ff fe fd fc | 295 | 1 1 1 | MET_UINT | fc fd fe ff
1 | 1 1 1 | MET_INT | False | 00 00 00 80 | 294 | 1 1 1 | MET_INT | 00 00 00 80
2 | 3 1 1 | MET_INT | True | 00000001 00000002 80000003 | 298 | 2 1 1 | MET_INT | 01 00 00 00 03 00 00 80
3 | 2 4 2 | MET_UCHAR | False | 00010203 04050607 08090a0b 0c0d0e0f | 294 | 1 2 1 | MET_UCHAR | 00 06";

// How long the value of a line is that says nothing of the volume, and how often it stands in the head.
const LONG_HEADS: &str = "0 | 1
256 | 1
65000 | 1
4 | 9000
1000 | 60";

// The volume that the bytes of a file have at a step; none where they are refused.
fn volume_of(alloc: Global, file: &[u8], step: u64) -> Option<Volume> {
    if step < 1 || 64 < step {
        return None;
    }
    let mut desk = MemDesk::new(alloc);
    desk.put_input(b"a", file).ok()?;
    desk.open_input(b"a").ok()?;
    let head = read_head(alloc, &mut desk, false).ok()?;
    read_volume(alloc, &mut desk, &head, step as u32, &Limits::first()).ok()
}

// Volumes of the same sizes and samples.
fn are_same(first: &Volume, second: &Volume) -> bool {
    let (samples, others) = (first.samples(), second.samples());
    if first.dims() != second.dims() || samples.len() != others.len() {
        return false;
    }
    for n in 0..samples.len() {
        if samples.get(n) != others.get(n) {
            return false;
        }
    }
    true
}

// Appends a line of the head.
fn add_line(file: &mut Vec<u8>, key: &str, value: &str) -> Result<(), AllocError> {
    file.extend_from_slice(key.as_bytes())?;
    file.extend_from_slice(b" = ")?;
    file.extend_from_slice(value.as_bytes())?;
    file.push(b'\n')?;
    Ok(())
}

// The file of a row, and what stands behind it in the row.
fn file_of(alloc: Global, row: &str) -> Result<(Vec<u8>, &str), AllocError> {
    let (sizes, rest) = field(row);
    let (element, rest) = field(rest);
    let (order, rest) = field(rest);
    let (samples, rest) = field(rest);
    let mut file = Vec::new(alloc);
    add_line(&mut file, "NDims", "3")?;
    add_line(&mut file, "DimSize", sizes)?;
    add_line(&mut file, "ElementByteOrderMSB", order)?;
    add_line(&mut file, "ElementType", element)?;
    add_line(&mut file, "ElementDataFile", "LOCAL")?;
    add_bytes(&mut file, samples)?;
    Ok((file, rest))
}

// The text that is wanted of a row: how long it is, and what it is.
fn wanted_of(alloc: Global, row: &str) -> Result<(u64, Vec<u8>), AllocError> {
    let (len, rest) = field(row);
    let (sizes, rest) = field(rest);
    let (element, samples) = field(rest);
    let mut text = Vec::new(alloc);
    text.extend_from_slice(FRONT.as_bytes())?;
    text.extend_from_slice(sizes.as_bytes())?;
    text.push(b'\n')?;
    add_line(&mut text, "ElementType", element)?;
    add_line(&mut text, "ElementDataFile", "LOCAL")?;
    add_bytes(&mut text, samples)?;
    Ok((number(len), text))
}

#[test]
fn writes_what_was_read(rt: HostRuntime) {
    let alloc = rt.alloc();
    for row in FILES.lines() {
        let (step, rest) = field(row);
        let (file, wanted) = file_of(alloc, rest).expect(&rt, "memory");
        let (len, wanted) = wanted_of(alloc, wanted).expect(&rt, "memory");
        let volume = volume_of(alloc, &file, number(step)).expect(&rt, "a volume");
        let text = mha_text(alloc, &volume).expect(&rt, "memory");
        assert_eq!(rt; text.len() as u64, len, "in {row}");
        assert_eq!(rt; text.as_slice(), wanted.as_slice(), "in {row}");
        let again = volume_of(alloc, &text, 1).expect(&rt, "a volume");
        assert!(rt; are_same(&again, &volume), "in {row}");
    }
}

#[test]
fn large_volumes_are_read_back(rt: HostRuntime) {
    let alloc = rt.alloc();
    let volume = phantom(alloc, 128, 7).expect(&rt, "memory");
    let text = mha_text(alloc, &volume).expect(&rt, "memory");
    let again = volume_of(alloc, &text, 1).expect(&rt, "a volume");
    assert!(rt; are_same(&again, &volume));
}

// A file of one sample with a line that stands some times in front.
fn long_head(alloc: Global, len: u64, times: u64) -> Result<Vec<u8>, AllocError> {
    let mut line = Vec::new(alloc);
    line.extend_from_slice(b"A=")?;
    for _ in 0..len {
        line.push(b'x')?;
    }
    line.push(b'\n')?;
    let mut file = Vec::new(alloc);
    for _ in 0..times {
        file.extend_from_slice(&line)?;
    }
    let (rest, _) = file_of(alloc, "1 1 1 | MET_UCHAR | False | 01")?;
    file.extend_from_slice(&rest)?;
    Ok(file)
}

#[test]
fn long_heads_are_read(rt: HostRuntime) {
    let alloc = rt.alloc();
    for row in LONG_HEADS.lines() {
        let (len, times) = field(row);
        let file = long_head(alloc, number(len), number(times)).expect(&rt, "memory");
        let volume = volume_of(alloc, &file, 1).expect(&rt, "a volume");
        assert_eq!(rt; volume.samples().len(), 1, "of {row}");
        assert_eq!(rt; volume.samples().get(0), 1, "of {row}");
    }
}

#[test]
fn faults_say_why(rt: HostRuntime) {
    for (fault, text) in [
        (
            VolFault::TooLarge { padded: 4210688 },
            "the volume is too large: 4210688 padded samples",
        ),
        (
            VolFault::Truncated { got: 1, wanted: 2 },
            "the input ends after 1 of 2 bytes",
        ),
        (VolFault::ReadFault, "the input could not be read"),
        (VolFault::NoMemory, "memory ran out"),
    ] {
        let shown = format!(in rt.alloc(); "{fault}").expect(&rt, "memory");
        assert_eq!(rt; shown.as_str(), text);
    }
}
