ghost use Rattle.std.specs.Prelude.{◌≡◌, ◌<◌, ◌==◌, length, true};
ghost use Rattle.std.specs.List.{position_or_len, list_all, list_any, before_first, after_first};
ghost use Rattle.std.specs.Str.Lines.{strip_carriage_return};
ghost use Rattle.formats.specs.Counts.{is_blank};
ghost use Rattle.formats.specs.HeadLines.{meaning_of, pair_or_bad};
ghost use Rattle.mha_read.specs.Meanings.{shown};

use text_words::without_blanks;

/// What a line of a head says: nothing, something bad, or a key's name and its value.
#[derive(Clone, Copy, Debug)]
pub enum Meaning<'a> {
    Nothing,
    Bad,
    Pair { name: &'a [u8], value: &'a [u8] },
}

fn without_return(line: &[u8]) -> &[u8]
    ensures { result.now ≡ strip_carriage_return line.now }
{
    if !line.is_empty() && line[line.len() - 1] == b'\r' {
        &line[..line.len() - 1]
    } else {
        line
    }
}

fn are_blanks(line: &[u8]) -> bool
    ensures { result ≡ list_all is_blank line.now }
{
    line.iter().all(|byte| *byte == b' ' || *byte == b'\t')
}

// The place of the first `=`, or the length where there is none.
fn place_of_equals(line: &[u8]) -> usize
    ensures value { result ≡ position_or_len (λ b. b == 61) line.now }
    ensures found { list_any (λ b. b == 61) line.now ≡ true → result < length line.now }
{
    for (i, byte) in line.iter().enumerate() {
        if *byte == b'=' {
            return i;
        }
    }
    line.len()
}

fn has_equals(line: &[u8]) -> bool
    ensures { result ≡ list_any (λ b. b == 61) line.now }
{
    line.iter().any(|byte| *byte == b'=')
}

fn named<'a>(name: &'a [u8], value: &'a [u8]) -> Meaning<'a>
    ensures { shown result ≡ pair_or_bad name.now value.now }
{
    if name.is_empty() {
        Meaning::Bad
    } else {
        Meaning::Pair { name, value }
    }
}

// What stands before the first `=`, and what behind it.
fn cut_at_equals(line: &[u8]) -> (&[u8], &[u8])
    requires { list_any (λ b. b == 61) line.now ≡ true }
    ensures before { result.0.now ≡ before_first (λ b. b == 61) line.now }
    ensures after { result.1.now ≡ after_first (λ b. b == 61) line.now }
{
    let at = place_of_equals(line);
    (&line[..at], &line[at + 1..])
}

/// What a line says.
pub fn read_meaning(text: &[u8]) -> Meaning<'_>
    ensures { shown result ≡ meaning_of text.now }
{
    let line = without_return(text);
    if are_blanks(line) {
        Meaning::Nothing
    } else if has_equals(line) {
        let (name, value) = cut_at_equals(line);
        named(without_blanks(name), without_blanks(value))
    } else {
        Meaning::Bad
    }
}
