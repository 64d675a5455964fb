//! How the rows of the tables are read, and how one is carried out.
//!
//! Bars part the fields of a row. In a text a semicolon stands for a newline, `^` for a carriage return, `~` for a tab
//! and `#` for a blank at an end. `_` is the empty word. Samples are pairs of hexadecimal digits, and `01*3` is three times 01; `box` is the
//! samples of a box, two bytes each, and `turned box` the same with the greater byte first. A head is `plain`, or a
//! type and sizes, or a text. Where a text is wanted, `..` at its end or begin leaves open what follows or stands
//! before, and `!` says that it is no part; `same` is the text of the row before.
ghost use Rattle.std.specs.Prelude.{◌<◌, IfOk};
ghost use Rattle.st_base.specs.Desk.{IsStart};
ghost use Rattle.desk_mem.specs.Meanings.{mem_input, mem_ports, mem_tried};

use desk_mem::MemDesk;
use st_base::{NoMemory, Port, Words};
use std::alloc::{AllocError, Global};
pub use table_lines::{cut, field};

/// The head of one sample.
pub const PLAIN: &[u8] =
    b"ObjectType = Image\nNDims = 3\nBinaryData = True\nBinaryDataByteOrderMSB = False\nCompressedData = False\nTransformMatrix = 1 0 0 0 1 0 0 0 1\nOffset = 0 0 0\nCenterOfRotation = 0 0 0\nAnatomicalOrientation = RAI\nElementSpacing = 1 1 1\nDimSize = 1 1 1\nElementType = MET_UCHAR\nElementDataFile = LOCAL\n";

/// The number that some decimal digits are.
pub fn number(text: &[u8]) -> u64 {
    u64::from(table_lines::number(text))
}

fn half_byte(digit: u8) -> u8 {
    match digit {
        b'0'..=b'9' => digit - b'0',
        b'a'..=b'f' => digit - b'a' + 10,
        _ => 0,
    }
}

// The word that stands at a place of a row.
fn word_of(word: &[u8], streamed: bool) -> &[u8] {
    match word {
        b"_" => b"",
        b"mesh" if streamed => b"stream",
        _ => word,
    }
}

/// The words that blanks part, with `stream` in place of `mesh` where that is asked.
pub fn words_as(alloc: Global, text: &[u8], streamed: bool) -> Result<Words, NoMemory> {
    let mut words = Words::new(alloc);
    let mut rest = text;
    while !rest.is_empty() {
        let (word, behind) = cut(rest, b' ');
        words.push(word_of(word, streamed))?;
        rest = behind;
    }
    Ok(words)
}

/// The words that blanks part.
pub fn words_of(alloc: Global, text: &[u8]) -> Result<Words, NoMemory> {
    words_as(alloc, text, false)
}

/// A text with its newlines.
pub fn text_of(alloc: Global, field: &[u8]) -> Result<Vec<u8>, AllocError> {
    let mut text = Vec::new(alloc);
    for byte in field {
        text.push(match *byte {
            b';' => b'\n',
            b'^' => b'\r',
            b'~' => b'\t',
            b'#' => b' ',
            byte => byte,
        })?;
    }
    Ok(text)
}

// Adds the head that a field says.
fn add_head(input: &mut Vec<u8>, alloc: Global, field: &[u8]) -> Result<(), AllocError> {
    if field == b"plain".as_slice() {
        return input.extend_from_slice(PLAIN);
    }
    if !field.starts_with(b"MET_") {
        return input.extend_from_slice(&text_of(alloc, field)?);
    }
    let (element, sizes) = cut(field, b' ');
    input.extend_from_slice(b"NDims = 3\nDimSize = ")?;
    input.extend_from_slice(sizes)?;
    input.extend_from_slice(b"\nElementType = ")?;
    input.extend_from_slice(element)?;
    input.extend_from_slice(b"\nElementDataFile = LOCAL\n")
}

// Adds a box of 32 samples of 200 in a volume of 64 of -1000 on each axis.
fn add_box(input: &mut Vec<u8>, first: usize) -> Result<(), AllocError>
    requires { first < 2 }
{
    let inside = |i: u32| 16 <= i % 64 && i % 64 < 48;
    for n in 0..262_144u32 {
        let is_in = inside(n) && inside(n / 64) && inside(n / 4096);
        let sample: [u8; 2] = if is_in { [0xc8, 0x00] } else { [0x18, 0xfc] };
        input.push(sample[first])?;
        input.push(sample[1 - first])?;
    }
    Ok(())
}

// Adds the samples that a field says.
fn add_samples(input: &mut Vec<u8>, field: &[u8]) -> Result<(), AllocError> {
    if field == b"box".as_slice() {
        return add_box(input, 0);
    }
    if field == b"turned box".as_slice() {
        return add_box(input, 1);
    }
    let mut rest = field;
    while !rest.is_empty() {
        let (sample, behind) = cut(rest, b' ');
        let (pair, times) = cut(sample, b'*');
        let byte = match pair {
            [high, low] => half_byte(*high)
                .wrapping_mul(16)
                .wrapping_add(half_byte(*low)),
            _ => 0,
        };
        for _ in 0..if times.is_empty() { 1 } else { number(times) } {
            input.push(byte)?;
        }
        rest = behind;
    }
    Ok(())
}

/// The input of a head and samples.
pub fn input_of(alloc: Global, head: &[u8], samples: &[u8]) -> Result<Vec<u8>, NoMemory> {
    let mut input = Vec::new(alloc);
    if add_head(&mut input, alloc, head).is_err() || add_samples(&mut input, samples).is_err() {
        return Err(NoMemory);
    }
    Ok(input)
}

/// A desk that holds it under the name `a`.
pub fn desk_of(alloc: Global, head: &[u8], samples: &[u8]) -> Result<MemDesk, NoMemory>
    ensures { IfOk result (λ desk. IsStart (mem_input desk) (mem_ports desk) (mem_tried desk)) }
{
    let input = input_of(alloc, head, samples)?;
    let mut desk = MemDesk::new(alloc);
    desk.put_input(b"a", &input)?;
    Ok(desk)
}

// Whether some part of a text is this one.
fn has(text: &[u8], part: &[u8]) -> bool {
    for i in 0..text.len() {
        if text[i..].starts_with(part) {
            return true;
        }
    }
    false
}

/// Whether the words are those of a mesh that can be streamed: one without faces.
pub fn can_stream(words: &[u8]) -> bool {
    words.starts_with(b"mesh ") && !has(words, b" faces=")
}

/// Whether a text is as wanted; `before` is that of the row before.
pub fn fits(text: &[u8], wanted: &[u8], before: &[u8]) -> bool {
    match wanted {
        b"same" => text == before,
        [b'!', part @ ..] => !has(text, part),
        [b'.', b'.', part @ ..] => has(text, part),
        [front @ .., b'.', b'.'] => text.starts_with(front),
        _ => text == wanted,
    }
}

/// The port of a name.
pub fn port_of(name: &[u8]) -> Port {
    match name {
        b"node" => Port::Node,
        b"ele" => Port::Ele,
        b"trouble" => Port::Trouble,
        b"face" => Port::Face,
        b"neigh" => Port::Neigh,
        _ => Port::Report,
    }
}
