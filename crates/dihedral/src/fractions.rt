ghost use Rattle.std.specs.Prelude.{◌≡◌, ◌+◌, ◌*◌, ◌/◌, ◌<◌, ◌≤◌, ◌^◌, ◌↔◌, IsTrue, IfSome};
ghost use Rattle.std.specs.Ordering.{nat_cmp};
ghost use Rattle.definitions.specs.Angles.{greatest_divisor, is_less};
ghost use Rattle.dihedral.specs.Fractions.{AreApart, IsFraction, in_lowest_terms};

use definitions::Cosine;
use std::cmp::Ordering;

/// The order of the two fractions.
///
/// Mostly the signs or the highest bits decide; where the fractions are too near for that, repeated quotients and
/// remainders do.
#[inline(always)]
pub fn compare(a: Cosine, b: Cosine) -> Ordering
    requires a { IsFraction a }
    requires b { IsFraction b }
    ensures less { (result ≡ Ordering.Less) ↔ IsTrue (is_less a b) }
    ensures greater { (result ≡ Ordering.Greater) ↔ IsTrue (is_less b a) }
{
    if a.sign != b.sign {
        a.sign.cmp(&b.sign)
    } else if a.sign >= 0 {
        compare_sizes(a.num, a.den, b.num, b.den)
    } else {
        compare_sizes(b.num, b.den, a.num, a.den)
    }
}

// The order of `a / b` and `c / d`.
#[inline(never)]
fn compare_sizes(a: u128, b: u128, c: u128, d: u128) -> Ordering
    requires b { 0 < b }
    requires d { 0 < d }
    ensures { result ≡ nat_cmp (a * d) (c * b) }
{
    if a == c && b == d {
        return Ordering::Equal;
    }
    match by_bits(a, b, 66, c, d, 66) {
        Some(order) => order,
        None => compare_near(a, b, c, d),
    }
}

// The order of `a / b` and `c / d`, for fractions whose highest bits do not decide it.
#[inline(never)]
fn compare_near(a: u128, b: u128, c: u128, d: u128) -> Ordering
    requires b { 0 < b }
    requires d { 0 < d }
    ensures { result ≡ nat_cmp (a * d) (c * b) }
{
    let left = spare_bits(a | b);
    let right = spare_bits(c | d);
    match by_bits(a, b, left, c, d, right) {
        Some(order) => order,
        None => by_quotients(a, b, c, d),
    }
}

// How many low bits to leave out so that at most 62 are left.
fn spare_bits(n: u128) -> u32
    ensures left { n < 2 ^ (62 + result) }
    ensures few { result ≤ 66 }
{
    (128 - n.leading_zeros()).saturating_sub(62)
}

// The number without its low bits.
fn leading(n: u128, spare: u32) -> u64
    requires few { spare ≤ 66 }
    requires left { n < 2 ^ (62 + spare) }
    ensures part { result ≡ n / 2 ^ spare }
    ensures small { result < 2 ^ 62 }
{
    (n >> spare) as u64
}

// The order of `a / b` and `c / d`, where it is decided without `left` and `right` low bits of each.
#[inline(always)]
fn by_bits(a: u128, b: u128, left: u32, c: u128, d: u128, right: u32) -> Option<Ordering>
    requires left { left ≤ 66 }
    requires right { right ≤ 66 }
    requires a { a < 2 ^ (62 + left) }
    requires b { b < 2 ^ (62 + left) }
    requires c { c < 2 ^ (62 + right) }
    requires d { d < 2 ^ (62 + right) }
    ensures { IfSome result (λ order. order ≡ nat_cmp (a * d) (c * b)) }
{
    by_parts(
        leading(a, left),
        leading(b, left),
        leading(c, right),
        leading(d, right),
    )
}

// The order that `a / b` and `c / d` have by their leading parts: with any further bits it is the same.
fn by_parts(a: u64, b: u64, c: u64, d: u64) -> Option<Ordering>
    requires a { a < 2 ^ 62 }
    requires b { b < 2 ^ 62 }
    requires c { c < 2 ^ 62 }
    requires d { d < 2 ^ 62 }
    ensures { IfSome result (λ order. AreApart order a b c d) }
{
    let left = a as u128 * d as u128;
    let right = c as u128 * b as u128;
    if right > left + (a + d) as u128 {
        Some(Ordering::Less)
    } else if left > right + (c + b) as u128 {
        Some(Ordering::Greater)
    } else {
        None
    }
}

// The order of `a / b` and `c / d`, by repeated quotients: where the whole parts are one, the order of what is left
// is that of the reciprocals turned round.
fn by_quotients(mut a: u128, mut b: u128, mut c: u128, mut d: u128) -> Ordering
    requires b { 0 < b }
    requires d { 0 < d }
    ensures { result ≡ nat_cmp (a * d) (c * b) }
{
    loop {
        let (left, right) = (a / b, c / d);
        if left != right {
            return left.cmp(&right);
        }
        let (over, under) = (a % b, c % d);
        if over == 0 || under == 0 {
            return over.cmp(&under);
        }
        (a, b, c, d) = (d, under, b, over);
    }
}

/// The fraction in lowest terms.
pub(crate) fn lowest(a: Cosine) -> Cosine
    requires { 1 ≤ a.den }
    ensures value { result ≡ in_lowest_terms a }
    ensures fraction { IsFraction a → IsFraction result }
{
    let divisor = greatest_divisor(a.num, a.den);
    Cosine {
        sign: a.sign,
        num: a.num / divisor,
        den: a.den / divisor,
    }
}

fn greatest_divisor(mut a: u128, mut b: u128) -> u128
    ensures value { result ≡ greatest_divisor a b }
    ensures some { 0 < b → 0 < result }
{
    while b != 0 {
        let rest = a % b;
        a = b;
        b = rest;
    }
    a
}
