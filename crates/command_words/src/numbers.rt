ghost use Rattle.std.specs.Prelude.{◌≡◌, ◌<◌, ◌*◌, ◌+◌, ◌-◌, ◌^◌, ℕ, ℤ, Some, IfSome, ◌≤◌, decimal, pos, neg_ℤ, option_map};
ghost use Rattle.std.specs.Option.{ForSome};
ghost use Rattle.std.specs.Str.{bytes_eq};
ghost use Rattle.command_line.specs.Grammar.{IsNumber, IsHalves, IsLevel};

use crate::ends::{after_start, before_end};
use itoa::Buffer;
use samples::Level;
use std::str;

// Whether the text is what is printed for the number.
fn is_printed(n: u64, text: &[u8]) -> bool
    ensures { result ≡ bytes_eq (decimal n) text.now }
{
    let mut buffer = Buffer::new();
    buffer.format(n).as_bytes() == text
}

/// The whole number that a text is: decimal digits without a sign or a leading zero, below 2^64.
pub fn number(text: &[u8]) -> Option<u64>
    ensures text { IfSome result (λ n. text.now ≡ decimal n) }
    ensures found { (n : ℕ) → n < 2 ^ 64 → text.now ≡ decimal n → result ≡ Some n }
{
    let Ok(digits) = str::from_utf8(text) else {
        return None;
    };
    let Ok(n) = digits.parse::<u64>() else {
        return None;
    };
    if is_printed(n, text) { Some(n) } else { None }
}

/// The whole number from `low` to `high` that a text is: decimal digits without a sign or a leading
/// zero.
pub fn number_within(text: &[u8], low: u32, high: u32) -> Option<u32>
    ensures text { IfSome result (λ n. IsNumber low high text.now (pos n)) }
    ensures found { (n : ℕ) → low ≤ n → n ≤ high → text.now ≡ decimal n → result ≡ Some n }
{
    match number(text) {
        Some(n) if n >= low as u64 && n <= high as u64 => Some(n as u32),
        _ => None,
    }
}

/// The whole number below 2^64 that a text is, in the same form.
pub fn any_number(text: &[u8]) -> Option<u64>
    ensures text { IfSome result (λ n. IsNumber 0 (2 ^ 64 - 1) text.now (pos n)) }
    ensures found { (n : ℕ) → n ≤ 2 ^ 64 - 1 → text.now ≡ decimal n → result ≡ Some n }
{
    number(text)
}

// Twice a whole number below 2^32, and a half more or none.
fn doubled(text: &[u8], half: u64) -> Option<u64>
    requires { half < 2 }
    ensures text { IfSome result (λ m. (n : ℕ) × (n < 2 ^ 32) × (text.now ≡ decimal n) × (m ≡ 2 * n + half)) }
    ensures found { (n : ℕ) → n < 2 ^ 32 → text.now ≡ decimal n → result ≡ Some (2 * n + half) }
{
    match number(text) {
        Some(n) if n < 1 << 32 => Some(2 * n + half),
        _ => None,
    }
}

/// Twice the number in halves that a text is: a whole number below 2^32, and then nothing, `.0` or
/// `.5`.
pub fn halves(text: &[u8]) -> Option<u64>
    ensures text { IfSome result (λ m. IsHalves text.now m) }
    ensures found { (m : ℕ) → IsHalves text.now m → result ≡ Some m }
    ensures bound { ForSome result (λ m. m < 2 ^ 33) }
{
    if let Some(whole) = before_end(text, b".5") {
        return doubled(whole, 1);
    }
    if let Some(whole) = before_end(text, b".0") {
        return doubled(whole, 0);
    }
    doubled(text, 0)
}

// The level below zero of a size.
fn below_zero(twice: Option<u64>) -> Option<Level>
    requires { ForSome twice (λ m. m < 2 ^ 33) }
    ensures { result ≡ option_map (λ m. neg_ℤ (pos m)) twice }
{
    match twice {
        Some(m) => Level::new(-(m as i64)),
        None => None,
    }
}

// The level of a size.
fn above_zero(twice: Option<u64>) -> Option<Level>
    requires { ForSome twice (λ m. m < 2 ^ 33) }
    ensures { result ≡ option_map (λ m. pos m) twice }
{
    match twice {
        Some(m) => Level::new(m as i64),
        None => None,
    }
}

/// The level that a text is: a number in halves with an optional minus sign.
pub fn level(text: &[u8]) -> Option<Level>
    ensures text { IfSome result (λ twice. IsLevel text.now twice) }
    ensures found { (twice : ℤ) → IsLevel text.now twice → result ≡ Some twice }
{
    match after_start(text, b"-") {
        Some(size) => below_zero(halves(size)),
        None => above_zero(halves(text)),
    }
}
