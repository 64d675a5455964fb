//! Blanks of a text, and the words that blanks part.
#![tactic(auto)]

ghost use Rattle.std.specs.Prelude.{◌≡◌, ◌∷◌, [], ◌<◌, ◌≤◌, length, IfSome, MatchOption};
ghost use Rattle.std.specs.List.{prefix_len, suffix_len, position_or_len};
ghost use Rattle.formats.specs.Counts.{is_blank};
ghost use Rattle.formats.specs.HeadLines.{trim_blanks};
ghost use Rattle.formats.specs.Heads.{words_of};

// A space or a tab.
fn blank(byte: u8) -> bool
    ensures { result ≡ is_blank byte }
{
    byte == b' ' || byte == b'\t'
}

// The number of blanks at the front.
fn leading_blanks(text: &[u8]) -> usize
    ensures value { result ≡ prefix_len is_blank text.now }
    ensures bound { result ≤ length text.now }
{
    for (i, byte) in text.iter().enumerate() {
        if !blank(*byte) {
            return i;
        }
    }
    text.len()
}

// The number of blanks at the end.
fn trailing_blanks(text: &[u8]) -> usize
    ensures value { result ≡ suffix_len is_blank text.now }
    ensures bound { result ≤ length text.now }
{
    let mut rest = text.len();
    while rest > 0 && blank(text[rest - 1]) {
        rest -= 1;
    }
    text.len() - rest
}

// The place of the first blank, or the length where there is none.
fn place_of_blank(text: &[u8]) -> usize
    ensures value { result ≡ position_or_len is_blank text.now }
    ensures bound { result ≤ length text.now }
{
    for (i, byte) in text.iter().enumerate() {
        if blank(*byte) {
            return i;
        }
    }
    text.len()
}

/// A text without the blanks at its front and at its end.
pub fn without_blanks(text: &[u8]) -> &[u8]
    ensures { result.now ≡ trim_blanks text.now }
{
    let rest = &text[leading_blanks(text)..];
    &rest[..rest.len() - trailing_blanks(rest)]
}

/// The first word of a text, and what stands behind it; none where there is no word.
///
/// ```rust
/// let (first, rest) = next_word(b" 12 7")?;
/// assert_eq!(rt; (first, rest), (b"12".as_slice(), b" 7".as_slice()));
/// ```
pub fn next_word(text: &[u8]) -> Option<(&[u8], &[u8])>
    ensures words { MatchOption result
        (words_of text.now ≡ [])
        (λ parts. words_of text.now ≡ parts.0.now ∷ words_of parts.1.now) }
    ensures shorter { IfSome result (λ parts. length parts.1.now < length text.now) }
{
    let rest = &text[leading_blanks(text)..];
    if rest.is_empty() {
        return None;
    }
    let at = place_of_blank(rest);
    Some((&rest[..at], &rest[at..]))
}
