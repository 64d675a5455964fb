ghost use Rattle.std.specs.Prelude.{◌≡◌, length};
ghost use Rattle.formats.specs.Heads.{words_of};

use text_words::next_word;

/// How many fields a text has.
pub fn field_count(text: &[u8]) -> usize
    ensures { result ≡ length (words_of text.now) }
{
    let mut rest = text;
    let mut count = 0usize;
    while let Some((_, behind)) = next_word(rest) {
        count += 1;
        rest = behind;
    }
    count
}
