ghost use Rattle.std.specs.Prelude.{◌≡◌, ◌≤ℤ◌, ◌<ℤ◌, ◌^◌, ◌∷◌, [], length, if◌then◌else◌, Some, None, IfSome, pos, neg_ℤ};
ghost use Rattle.std.specs.List.{list_all};
ghost use Rattle.formats.specs.Decimals.{is_decimal, is_between, is_spacing, is_offset, decimal_units};
ghost use Rattle.formats.specs.Heads.{words_of};
ghost use Rattle.mha_read.specs.Axes.{AreBetween, first_between};

use crate::decimals::{decimal, plain_number};
use text_words::next_word;

/// Spacings are below this, in units of 10^-18, and above 0.
pub const SPACING_LIMIT: i128 = 1_000_000_000_000_000_000_000;

/// Offsets are below this in size, in units of 10^-18.
pub const OFFSET_LIMIT: i128 = 1_000_000_000_000_000_000_000_000;

/// Three numbers in units of 10^-18, one for each axis.
#[derive(Clone, Copy, Debug, PartialEq, Eq)]
pub struct Numbers {
    pub x: i128,
    pub y: i128,
    pub z: i128,
}

/// How many words a value has, where all of them are decimals.
pub fn decimal_count(value: &[u8]) -> Option<usize>
    ensures { result ≡ (if list_all is_decimal (words_of value.now) then Some (length (words_of value.now)) else None) }
{
    let mut rest = value;
    let mut decimals = 0usize;
    while let Some((word, behind)) = next_word(rest) {
        if !decimal(word) {
            return None;
        }
        decimals += 1;
        rest = behind;
    }
    Some(decimals)
}

// The number that a plain decimal is, in units of 10^-18, where it lies between two numbers.
fn number_between(word: &[u8], low: i128, high: i128) -> Option<i128>
    requires low { neg_ℤ (pos (10 ^ 24)) ≤ℤ low }
    requires high { high ≤ℤ pos (10 ^ 24) }
    ensures value { result ≡ (if is_between low high word.now then Some (decimal_units word.now) else None) }
    ensures above { IfSome result (λ n. low <ℤ n) }
    ensures below { IfSome result (λ n. n <ℤ high) }
{
    let number = plain_number(word)?;
    if low < number && number < high {
        Some(number)
    } else {
        None
    }
}

// All words are plain decimals between two numbers.
fn are_between(value: &[u8], low: i128, high: i128) -> bool
    requires low { neg_ℤ (pos (10 ^ 24)) ≤ℤ low }
    requires high { high ≤ℤ pos (10 ^ 24) }
    ensures { result ≡ list_all (is_between low high) (words_of value.now) }
{
    let mut rest = value;
    while let Some((word, behind)) = next_word(rest) {
        if number_between(word, low, high).is_none() {
            return false;
        }
        rest = behind;
    }
    true
}

/// All words are spacings that are supported.
pub fn are_spacings(value: &[u8]) -> bool
    ensures { result ≡ list_all is_spacing (words_of value.now) }
{
    are_between(value, 0, SPACING_LIMIT)
}

/// All words are offsets that are supported.
pub fn are_offsets(value: &[u8]) -> bool
    ensures { result ≡ list_all is_offset (words_of value.now) }
{
    are_between(value, -OFFSET_LIMIT, OFFSET_LIMIT)
}

fn all_between(first: &[u8], second: &[u8], third: &[u8], low: i128, high: i128) -> Option<Numbers>
    requires low { neg_ℤ (pos (10 ^ 24)) ≤ℤ low }
    requires high { high ≤ℤ pos (10 ^ 24) }
    ensures value { result ≡ first_between low high (first.now ∷ second.now ∷ third.now ∷ []) }
    ensures bounds { IfSome result (AreBetween low high) }
{
    Some(Numbers {
        x: number_between(first, low, high)?,
        y: number_between(second, low, high)?,
        z: number_between(third, low, high)?,
    })
}

/// The numbers that the first three words are, where they are plain decimals between two numbers.
pub fn three_between(value: &[u8], low: i128, high: i128) -> Option<Numbers>
    requires low { neg_ℤ (pos (10 ^ 24)) ≤ℤ low }
    requires high { high ≤ℤ pos (10 ^ 24) }
    ensures value { result ≡ first_between low high (words_of value.now) }
    ensures bounds { IfSome result (AreBetween low high) }
{
    let (first, rest) = next_word(value)?;
    let (second, rest) = next_word(rest)?;
    let (third, _) = next_word(rest)?;
    all_between(first, second, third, low, high)
}
