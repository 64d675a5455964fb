//! How the rows of the table are read.
//!
//! Bars part the fields of a row: a .node text, an .ele text, and the answer. In a text a semicolon
//! stands for a newline, `^` for a carriage return, `~` for a tab, `!` for the byte 0, and `@` with a
//! byte behind it for ten thousand of that byte. `ball` is the mesh around one sample, numbered from 0,
//! and `ball from one` the same from 1; `ball/LINE` has this line in place of the one with its number.
//! `five` are the corners of a tetrahedron, and another point.
use desk_mem::MemDesk;
use small_images::{
    ONE_SAMPLE_ELE_FILE, ONE_SAMPLE_ELE_FILE_FROM_ONE, ONE_SAMPLE_NODE_FILE,
    ONE_SAMPLE_NODE_FILE_FROM_ONE,
};
use st_base::NoMemory;
use std::alloc::{AllocError, Global};
use table_lines::cut;

const FIVE: &[u8] = b"5 3 0 0\n0 0 0 0\n1 1 0 0\n2 0 1 0\n3 0 0 1\n4 0 0 2\n";

// Adds the bytes that a field says.
fn add_text(text: &mut Vec<u8>, field: &[u8]) -> Result<(), AllocError> {
    let mut times = 1;
    for byte in field {
        if *byte == b'@' {
            times = 10_000;
            continue;
        }
        let byte = match *byte {
            b';' => b'\n',
            b'^' => b'\r',
            b'~' => b'\t',
            b'!' => 0,
            byte => byte,
        };
        for _ in 0..times {
            text.push(byte)?;
        }
        times = 1;
    }
    Ok(())
}

// Adds the tetrahedra of the ball, with this line in place of the one with its number.
fn add_ball(text: &mut Vec<u8>, line: &[u8]) -> Result<(), AllocError> {
    let (number, _) = cut(line, b' ');
    for own in ONE_SAMPLE_ELE_FILE
        .trim_ascii()
        .split(|byte| *byte == b'\n')
    {
        let (own_number, _) = cut(own, b' ');
        text.extend_from_slice(if own_number == number { line } else { own })?;
        text.push(b'\n')?;
    }
    Ok(())
}

// The .node text of a field.
fn node_text(alloc: Global, field: &[u8]) -> Result<Vec<u8>, AllocError> {
    let mut text = Vec::new(alloc);
    match field {
        b"ball" => text.extend_from_slice(ONE_SAMPLE_NODE_FILE)?,
        b"ball from one" => text.extend_from_slice(ONE_SAMPLE_NODE_FILE_FROM_ONE)?,
        b"five" => text.extend_from_slice(FIVE)?,
        _ => add_text(&mut text, field)?,
    }
    Ok(text)
}

// The .ele text of a field.
fn ele_text(alloc: Global, field: &[u8]) -> Result<Vec<u8>, AllocError> {
    let mut text = Vec::new(alloc);
    match field {
        b"ball" => text.extend_from_slice(ONE_SAMPLE_ELE_FILE)?,
        b"ball from one" => text.extend_from_slice(ONE_SAMPLE_ELE_FILE_FROM_ONE)?,
        [b'b', b'a', b'l', b'l', b'/', line @ ..] => add_ball(&mut text, line)?,
        _ => add_text(&mut text, field)?,
    }
    Ok(text)
}

/// A desk that holds the texts of two fields as `out.node` and `out.ele`.
pub fn desk_of(alloc: Global, node: &[u8], ele: &[u8]) -> Result<MemDesk, NoMemory> {
    let mut desk = MemDesk::new(alloc);
    let Ok(node) = node_text(alloc, node) else {
        return Err(NoMemory);
    };
    let Ok(ele) = ele_text(alloc, ele) else {
        return Err(NoMemory);
    };
    desk.put_input(b"out.node", &node)?;
    desk.put_input(b"out.ele", &ele)?;
    Ok(desk)
}
