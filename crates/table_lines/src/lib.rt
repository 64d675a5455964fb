//! How the lines of a table in a test are read: a text literal, cut at marks.
#![tactic(auto)]

ghost use Rattle.std.specs.Prelude.{◌<◌, length};

/// What stands before the first mark, and what stands behind it.
///
/// ```
/// let (line, rest) = cut(b"1|2\n3|4\n", b'\n');
/// let (left, right) = cut(line, b'|');
/// assert_eq!(number(right), 2);
/// ```
pub fn cut(text: &[u8], mark: u8) -> (&[u8], &[u8])
    ensures shorter { 0 < length text.now → length result.1.now < length text.now }
{
    for (i, byte) in text.iter().enumerate() {
        if *byte == mark {
            return (&text[..i], &text[i + 1..]);
        }
    }
    (text, b"")
}

/// The next field of a row whose fields bars part, without the blanks around it, and what stands behind it.
///
/// ```
/// let (name, rest) = field(b"node | 2");
/// assert_eq!(name, b"node");
/// ```
pub fn field(row: &[u8]) -> (&[u8], &[u8]) {
    let (field, rest) = cut(row, b'|');
    (field.trim_ascii(), rest)
}

/// The number that some decimal digits are.
pub fn number(text: &[u8]) -> u32 {
    let mut number = 0u32;
    for digit in text {
        number = number
            .wrapping_mul(10)
            .wrapping_add(u32::from(digit.wrapping_sub(b'0')));
    }
    number
}
