ghost use Rattle.std.specs.Prelude.{◌≡◌, ◌+◌, ◌≤◌, ◌==◌, length, drop};
ghost use Rattle.std.specs.List.{position_or_len};

/// The place of the first such byte, or the length where there is none.
pub fn place_of(text: &[u8], sought: u8) -> usize
    ensures value { result ≡ position_or_len (λ b. b == sought) text.now }
    ensures bound { result ≤ length text.now }
{
    for (i, byte) in text.iter().enumerate() {
        if *byte == sought {
            return i;
        }
    }
    text.len()
}

/// What stands behind a place.
pub fn behind(text: &[u8], at: usize) -> &[u8]
    requires { at ≤ length text.now }
    ensures { result.now ≡ drop (at + 1) text.now }
{
    if at < text.len() {
        &text[at + 1..]
    } else {
        &text[at..]
    }
}
