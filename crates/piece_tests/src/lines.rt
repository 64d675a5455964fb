//! How the fields of the tables are read.
use stencils::{Corner, Sign};

fn sign(text: &[u8], slot: usize) -> Sign {
    match text.get(slot) {
        Some(b'+') => Sign::Plus,
        Some(b'-') => Sign::Minus,
        _ => Sign::Zero,
    }
}

/// Four signs, as `+0-+`.
pub fn signs(text: &[u8]) -> [Sign; 4] {
    [sign(text, 0), sign(text, 1), sign(text, 2), sign(text, 3)]
}

fn digit(text: &[u8], place: usize) -> u8 {
    match text.get(place) {
        Some(digit) => digit.wrapping_sub(b'0'),
        None => 255,
    }
}

/// A vertex by its slot, or a cut by its two.
pub fn corner(text: &[u8]) -> Corner {
    if text.len() == 2 {
        Corner::Cut(digit(text, 0), digit(text, 1))
    } else {
        Corner::Whole(digit(text, 0))
    }
}

/// Whether a list of positions is written so, as `0134`.
pub fn is_written(positions: &[u8], text: &[u8]) -> bool {
    if positions.len() != text.len() {
        return false;
    }
    for (i, position) in positions.iter().enumerate() {
        if digit(text, i) != *position {
            return false;
        }
    }
    true
}
