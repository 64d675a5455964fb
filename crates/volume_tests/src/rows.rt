//! How the rows of the tables are read.

use std::alloc::{AllocError, Global};

/// What stands before the first bar, and what stands behind it.
pub fn field(row: &str) -> (&str, &str) {
    match row.split_once('|') {
        Some((field, rest)) => (field.trim(), rest.trim()),
        None => (row.trim(), ""),
    }
}

/// The number that digits write; none where they write none.
pub fn number(text: &str) -> u64 {
    text.parse().unwrap_or(u64::MAX)
}

fn half_byte(digit: u8) -> u8 {
    match digit {
        b'0'..=b'9' => digit - b'0',
        b'a'..=b'f' => digit - b'a' + 10,
        _ => 0,
    }
}

/// Appends the bytes that pairs of hexadecimal digits write.
pub fn add_bytes(out: &mut Vec<u8>, text: &str) -> Result<(), AllocError> {
    let mut high = None;
    for digit in text.as_bytes() {
        if *digit == b' ' {
            continue;
        }
        match high.take() {
            None => high = Some(half_byte(*digit)),
            Some(first) => out.push((first << 4) | half_byte(*digit))?,
        }
    }
    Ok(())
}
