//! Where the surface cuts an edge of the lattice, and how far a cut is from an end.
#![tactic(auto)]

ghost use Rattle.std.specs.Prelude.{◌≡◌, ◌^◌, ◌≤◌, IfSome, unsigned_abs};
ghost use Rattle.definitions.specs.Cuts.{cut_number};
ghost use Rattle.definitions.specs.States.{square_of};

/// The number of the cut on an edge between the values `ga` at its lower and `gb` at its upper end; none
/// where their signs are not strictly opposite.
///
/// It is `|ga| / (|ga| + |gb|)` of the edge in 4096ths, rounded to the nearest, half up, so its distance
/// from the lower end is the number itself, and from the upper end 4096 less the number.
///
/// ```rust
/// assert_eq!(rt; cut(8, -6), Some(2341));
/// assert_eq!(rt; cut(-6, 8), Some(1755));
/// assert_eq!(rt; cut(8, 6), None);
/// ```
#[tactic(auto, unfolding(definitions::specs::Cuts::cut_number, definitions::specs::Cuts::cut_between))]
pub fn cut(ga: i64, gb: i64) -> Option<u16>
    requires a { unsigned_abs ga ≤ 2 ^ 40 }
    requires b { unsigned_abs gb ≤ 2 ^ 40 }
    ensures number { result ≡ cut_number ga gb }
    ensures within { IfSome result (λ k. k ≤ 4096) }
{
    if (ga > 0 && gb < 0) || (ga < 0 && gb > 0) {
        let a = ga.unsigned_abs();
        let b = gb.unsigned_abs();
        Some(((8192 * a + a + b) / (2 * (a + b))) as u16)
    } else {
        None
    }
}

/// The square of a distance of `t` 4096ths of an edge, in squares of a 4096th of a half unit: a long
/// edge is 2 half units, and a short one the root of 3.
pub fn reach2(long: bool, t: u16) -> u32
    requires { t ≤ 4096 }
    ensures square { result ≡ square_of long t }
    ensures small { result ≤ 2 ^ 26 }
{
    let t = t as u32;
    if long { 4 * t * t } else { 3 * t * t }
}
