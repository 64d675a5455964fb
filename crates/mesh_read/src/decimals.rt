ghost use Rattle.std.specs.Prelude.{◌≡◌, ◌≢◌, ◌+◌, ◌-◌, ◌*◌, ◌<◌, ◌≤◌, ◌^◌, ◌==◌, ◌++◌, [], ℕ, List, length, drop, true, false, Some, None, IfSome, MatchOption, if◌then◌else◌, unsigned_abs, pos, neg_ℤ};
ghost use Rattle.std.specs.List.{list_all, position_or_len};
ghost use Rattle.std.specs.Char.{is_ascii_digit};
ghost use Rattle.std.specs.Str.Parse.{digits_value};
ghost use Rattle.mesh_files.specs.Numbers.{is_decimal, is_coordinate, coordinate as coordinate_of, is_minus as begins_with_minus, without_sign as after_sign, are_units, units as in_units, signed as with_sign};
ghost use Rattle.mesh_read.specs.Decimals.{IsDecimalOf};

use crate::bytes::{behind, place_of};
use crate::numbers::{are_digits, value};

// The greatest whole part of a coordinate.
const GREATEST: u64 = 1_048_575;

// 5^13: a fraction of thirteen digits is a multiple of 1/8192 where it is one of this.
const FIVES: u64 = 1_220_703_125;

/// The parts of a decimal: whether it begins with a minus, and the digits before and behind its point.
#[derive(Clone, Copy, Debug)]
pub struct Decimal<'a> {
    pub minus: bool,
    pub whole: &'a [u8],
    pub fraction: &'a [u8],
}

fn is_minus(text: &[u8]) -> bool
    ensures { result ≡ begins_with_minus text.now }
{
    !text.is_empty() && text[0] == b'-'
}

fn without_sign(text: &[u8]) -> &[u8]
    ensures { result.now ≡ after_sign text.now }
{
    match text {
        [first, rest @ ..] => {
            if *first == b'+' || *first == b'-' {
                rest
            } else {
                text
            }
        }
        [] => text,
    }
}

/// The decimal that a text is: a sign that may be left out, and digits, at least one, with at most one
/// point before, among or behind them.
#[tactic(auto, unfolding(mesh_files::specs::Numbers::is_decimal))]
pub fn read_decimal(text: &[u8]) -> Option<Decimal<'_>>
    ensures { MatchOption result (is_decimal text.now ≡ false) (λ d. IsDecimalOf text.now d) }
{
    let digits = without_sign(text);
    let at = place_of(digits, b'.');
    let whole = &digits[..at];
    let fraction = behind(digits, at);
    if whole.is_empty() && fraction.is_empty() {
        return None;
    }
    if !are_digits(whole) || !are_digits(fraction) {
        return None;
    }
    Some(Decimal {
        minus: is_minus(text),
        whole,
        fraction,
    })
}

// The number that up to thirteen digits write.
fn short_value(digits: &[u8]) -> u64
    requires few { length digits.now ≤ 13 }
    requires digits { list_all is_ascii_digit digits.now ≡ true }
    ensures value { result ≡ digits_value 10 digits.now }
    ensures bound { result < 10 ^ length digits.now }
{
    match value(digits, 9_999_999_999_999) {
        Some(value) => value,
        None => unreachable!(),
    }
}

// Up to thirteen digits behind a point, as thirteen.
fn thirteen_digits(front: &[u8]) -> u64
    requires few { length front.now ≤ 13 }
    requires digits { list_all is_ascii_digit front.now ≡ true }
    ensures value { result ≡ digits_value 10 front.now * 10 ^ (13 - length front.now) }
    ensures bound { result < 10 ^ 13 }
{
    let value = short_value(front);
    value * 10u64.pow(13 - front.len() as u32)
}

fn are_zeros(digits: &[u8]) -> bool
    ensures { result ≡ list_all (λ b. b == 48) digits.now }
{
    digits.iter().all(|digit| *digit == b'0')
}

// The first thirteen digits behind a point and those behind them in units of 1/8192, where they are a
// multiple.
fn parts_units(front: &[u8], behind: &[u8]) -> Option<u64>
    requires few { length front.now ≤ 13 }
    requires rest { length front.now < 13 → behind.now ≡ [] }
    requires front { list_all is_ascii_digit front.now ≡ true }
    requires behind { list_all is_ascii_digit behind.now ≡ true }
    ensures value { MatchOption result
        ((k : ℕ) → digits_value 10 (front.now ++ behind.now) * 8192 ≢ k * 10 ^ length (front.now ++ behind.now))
        (λ q. digits_value 10 (front.now ++ behind.now) * 8192 ≡ q * 10 ^ length (front.now ++ behind.now)) }
    ensures bound { IfSome result (λ q. q < 8192) }
{
    if !are_zeros(behind) {
        return None;
    }
    let thirteen = thirteen_digits(front);
    if thirteen % FIVES != 0 {
        return None;
    }
    Some(thirteen / FIVES)
}

// Digits behind a point in units of 1/8192, where they are a multiple.
fn fraction_units(fraction: &[u8]) -> Option<u64>
    requires { list_all is_ascii_digit fraction.now ≡ true }
    ensures value { MatchOption result
        ((k : ℕ) → digits_value 10 fraction.now * 8192 ≢ k * 10 ^ length fraction.now)
        (λ q. digits_value 10 fraction.now * 8192 ≡ q * 10 ^ length fraction.now) }
    ensures bound { IfSome result (λ q. q < 8192) }
{
    if fraction.len() > 13 {
        parts_units(&fraction[..13], &fraction[13..])
    } else {
        parts_units(fraction, &[])
    }
}

// Digits before and behind a point in units of 1/8192, where they are a multiple and below 1048576.
fn units(whole: &[u8], fraction: &[u8]) -> Option<u64>
    requires whole { list_all is_ascii_digit whole.now ≡ true }
    requires fraction { list_all is_ascii_digit fraction.now ≡ true }
    ensures value { result ≡ (if are_units whole.now fraction.now then Some (in_units whole.now fraction.now) else None) }
    ensures bound { IfSome result (λ n. n < 2 ^ 33) }
{
    let Some(steps) = value(whole, GREATEST) else {
        return None;
    };
    match fraction_units(fraction) {
        Some(part) => Some(steps * 8192 + part),
        None => None,
    }
}

/// A decimal in units of 1/8192, where it is a multiple of that and below 1048576 in size.
pub fn coordinate(decimal: &Decimal<'_>) -> Option<i64>
    requires whole { list_all is_ascii_digit decimal.now.whole.now ≡ true }
    requires fraction { list_all is_ascii_digit decimal.now.fraction.now ≡ true }
    ensures value { (text : List ℕ) → IsDecimalOf text decimal.now →
        result ≡ (if is_coordinate text then Some (coordinate_of text) else None) }
    ensures small { IfSome result (λ z. unsigned_abs z < 2 ^ 33) }
{
    match units(decimal.whole, decimal.fraction) {
        Some(units) => {
            let size = units as i64;
            Some(if decimal.minus { -size } else { size })
        }
        None => None,
    }
}
