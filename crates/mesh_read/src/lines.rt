ghost use Rattle.std.specs.Prelude.{◌≡◌, ◌∷◌, [], ◌+◌, ◌<◌, ◌≤◌, ◌^◌, length, nat_lt, true, IfSome, MatchOption};
ghost use Rattle.std.specs.List.{before_first};
ghost use Rattle.std.specs.Str.Lines.{strip_carriage_return};
ghost use Rattle.formats.specs.Heads.{words_of};
ghost use Rattle.mesh_files.specs.Lines.{content_of, lines_from, Line};
ghost use Rattle.mesh_read.specs.TextLines.{line_of};

use crate::bytes::{behind, place_of};
use text_words::next_word;

/// A line that has fields: the number of bytes before it, what counts of it, the text behind it, and
/// the number of bytes before that.
#[derive(Clone, Copy, Debug)]
pub struct TextLine<'a> {
    pub place: usize,
    pub content: &'a [u8],
    pub rest: &'a [u8],
    pub next: usize,
}

fn without_return(line: &[u8]) -> &[u8]
    ensures value { result.now ≡ strip_carriage_return line.now }
    ensures shorter { length result.now ≤ length line.now }
{
    if !line.is_empty() && line[line.len() - 1] == b'\r' {
        &line[..line.len() - 1]
    } else {
        line
    }
}

// What counts of a line: without one carriage return at its end, what stands before the first `#`.
fn content(line: &[u8]) -> &[u8]
    ensures value { result.now ≡ content_of line.now }
    ensures shorter { length result.now ≤ length line.now }
{
    let text = without_return(line);
    &text[..place_of(text, b'#')]
}

fn has_fields(text: &[u8]) -> bool
    ensures value { result ≡ nat_lt 0 (length (words_of text.now)) }
    ensures some { result ≡ true → 0 < length text.now }
{
    next_word(text).is_some()
}

/// The next line that has fields, where so many bytes stand before the text.
pub fn next_line(text: &[u8], before: usize) -> Option<TextLine<'_>>
    requires { before + length text.now < 2 ^ 62 }
    ensures lines { MatchOption result
        (lines_from before text.now ≡ [])
        (λ l. lines_from before text.now ≡ line_of l ∷ lines_from l.next l.rest.now) }
    ensures ahead { IfSome result (λ l. before + 2 ≤ l.next) }
    ensures shorter { IfSome result (λ l. length l.rest.now < length text.now) }
    ensures within { IfSome result (λ l. l.next + length l.rest.now ≤ before + length text.now + 1) }
    ensures more { IfSome result (λ l. 0 < length l.rest.now →
        l.next + length l.rest.now ≤ before + length text.now) }
{
    let mut rest = text;
    let mut place = before;
    while !rest.is_empty() {
        let end = place_of(rest, b'\n');
        let content = content(&rest[..end]);
        let later = behind(rest, end);
        let next = place + end + 1;
        if has_fields(content) {
            return Some(TextLine {
                place,
                content,
                rest: later,
                next,
            });
        }
        rest = later;
        place = next;
    }
    None
}
