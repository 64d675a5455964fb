ghost use Rattle.std.specs.Prelude.{◌≡◌, ◌<◌, ◌==◌, ◌++◌, ◌^◌, ℕ, ℤ, List, Some, IfSome, IfNone, codes, decimal, pos, neg_ℤ, option_map, option_and_then};
ghost use Rattle.std.specs.List.{position};
ghost use Rattle.std.specs.Option.{ForSome};
ghost use Rattle.definitions.specs.declared.Place.{Place as PlaceValue};
ghost use Rattle.definitions.specs.Places.{place};
ghost use Rattle.command_line.specs.Grammar.{IsCoordinate, IsPoint};
ghost use Rattle.command_words.specs.Points.{HasNoComma};

use crate::ends::after_start;
use crate::numbers::number;
use st_base::Place;

// The whole number below 2^40 that a text is.
fn size(text: &[u8]) -> Option<u64>
    ensures text { IfSome result (λ n. text.now ≡ decimal n) }
    ensures found { (n : ℕ) → n < 2 ^ 40 → text.now ≡ decimal n → result ≡ Some n }
    ensures bound { ForSome result (λ n. n < 2 ^ 40) }
{
    match number(text) {
        Some(n) if n < 1 << 40 => Some(n),
        _ => None,
    }
}

// The number below zero of a size.
fn below_zero(size: Option<u64>) -> Option<i64>
    requires { ForSome size (λ n. n < 2 ^ 40) }
    ensures { result ≡ option_map (λ n. neg_ℤ (pos n)) size }
{
    match size {
        Some(n) => Some(-(n as i64)),
        None => None,
    }
}

// The number above zero of a size.
fn above_zero(size: Option<u64>) -> Option<i64>
    requires { ForSome size (λ n. n < 2 ^ 40) }
    ensures { result ≡ option_map (λ n. pos n) size }
{
    match size {
        Some(n) => Some(n as i64),
        None => None,
    }
}

/// The coordinate that a text is: a whole number below 2^40 in size with an optional minus sign.
pub fn coordinate(text: &[u8]) -> Option<i64>
    ensures text { IfSome result (λ value. IsCoordinate text.now value) }
    ensures found { (value : ℤ) → IsCoordinate text.now value → result ≡ Some value }
{
    match after_start(text, b"-") {
        Some(rest) => below_zero(size(rest)),
        None => above_zero(size(text)),
    }
}

// Where the first comma of a text stands.
fn comma(text: &[u8]) -> Option<usize>
    ensures { result ≡ position (λ byte. byte == 44) text.now }
{
    text.iter().position(|byte| *byte == b',')
}

// What stands before the first comma of a text, and what behind it.
fn parted(text: &[u8]) -> Option<(&[u8], &[u8])>
    ensures parts { IfSome result (λ p. text.now ≡ p.0.now ++ (codes "," ++ p.1.now)) }
    ensures first { IfSome result (λ p. HasNoComma p.0.now) }
    ensures none { IfNone result ((front rest : List ℕ) → text.now ≡ front ++ (codes "," ++ rest) → ⊥) }
{
    let n = comma(text)?;
    Some((&text[..n], &text[n + 1..]))
}

// The place of three coordinates.
fn place_of(x: Option<i64>, y: Option<i64>, z: Option<i64>) -> Option<Place>
    ensures { result ≡ option_and_then (λ x. option_and_then (λ y. option_map (λ z. place x y z) z) y) x }
{
    Some(Place {
        x: x?,
        y: y?,
        z: z?,
    })
}

/// The point that a text is: three coordinates with a comma between each two.
pub fn point(text: &[u8]) -> Option<Place>
    ensures text { IfSome result (λ p. IsPoint text.now p) }
    ensures found { (p : PlaceValue) → IsPoint text.now p → result ≡ Some p }
{
    let (x, rest) = parted(text)?;
    let (y, z) = parted(rest)?;
    place_of(coordinate(x), coordinate(y), coordinate(z))
}
