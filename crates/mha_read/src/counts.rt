ghost use Rattle.std.specs.Prelude.{◌≡◌, ◌∷◌, [], ◌≤◌, length, if◌then◌else◌, Some, None, IfSome};
ghost use Rattle.std.specs.List.{list_all};
ghost use Rattle.std.specs.Str.Parse.{digits_value};
ghost use Rattle.formats.specs.Counts.{is_count, is_positive_count};
ghost use Rattle.formats.specs.Heads.{words_of};
ghost use Rattle.mha_read.specs.RawSizes.{AreRawSizes, first_three};

use text_words::next_word;

/// The number that 1 to 9 decimal digits write.
pub fn count(digits: &[u8]) -> Option<u32>
    ensures value { result ≡ (if is_count digits.now then Some (digits_value 10 digits.now) else None) }
    ensures bound { IfSome result (λ n. n ≤ 999999999) }
{
    if digits.is_empty() || digits.len() > 9 {
        return None;
    }
    let mut value = 0u32;
    for digit in digits {
        if *digit < b'0' || *digit > b'9' {
            return None;
        }
        value = value * 10 + u32::from(*digit - b'0');
    }
    Some(value)
}

/// The number that 1 to 9 decimal digits write, where it is at least 1.
pub fn positive_count(digits: &[u8]) -> Option<u32>
    ensures value { result ≡ (if is_positive_count digits.now then Some (digits_value 10 digits.now) else None) }
    ensures positive { IfSome result (λ n. 1 ≤ n) }
    ensures bound { IfSome result (λ n. n ≤ 999999999) }
{
    match count(digits) {
        Some(value) if value >= 1 => Some(value),
        _ => None,
    }
}

/// How many words a value has, where all of them are counts of at least 1.
pub fn size_count(value: &[u8]) -> Option<usize>
    ensures { result ≡ (if list_all is_positive_count (words_of value.now) then Some (length (words_of value.now)) else None) }
{
    let mut rest = value;
    let mut sizes = 0usize;
    while let Some((word, behind)) = next_word(rest) {
        if positive_count(word).is_none() {
            return None;
        }
        sizes += 1;
        rest = behind;
    }
    Some(sizes)
}

fn three_counts(first: &[u8], second: &[u8], third: &[u8]) -> Option<[u32; 3]>
    ensures value { result ≡ first_three (first.now ∷ second.now ∷ third.now ∷ []) }
    ensures sizes { IfSome result AreRawSizes }
{
    Some([
        positive_count(first)?,
        positive_count(second)?,
        positive_count(third)?,
    ])
}

/// The three sizes that begin a value.
pub fn raw_sizes(value: &[u8]) -> Option<[u32; 3]>
    ensures value { result ≡ first_three (words_of value.now) }
    ensures sizes { IfSome result AreRawSizes }
{
    let (first, rest) = next_word(value)?;
    let (second, rest) = next_word(rest)?;
    let (third, _) = next_word(rest)?;
    three_counts(first, second, third)
}
