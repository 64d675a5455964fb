ghost use Rattle.std.specs.Prelude.{◌≡◌, ℕ, ◌+◌, ◌*◌, ◌/◌, ◌^◌, ◌<◌, ◌≤◌, IsTrue, List};
ghost use Rattle.definitions.specs.declared.Place.{Place};

use crate::faces::Faces;
use crate::pair::Pair;
use definitions::Cosine;

/// Bounds on the squares of cosines, in 4096ths: an angle whose square is at most `least`, if its cosine is above 0, or
/// at most `greatest`, if not, is within the extremes so far. 0: there is no such bound.
#[derive(Clone, Copy)]
pub(crate) struct Bounds {
    least: u64,
    greatest: u64,
    ghost least_small: { least ≤ 4096 },
    ghost greatest_small: { greatest ≤ 4096 },
}

// The higher half of a number.
#[inline(always)]
fn high(n: u128) -> u64
    ensures { result ≡ n / 2 ^ 64 }
{
    (n >> 64) as u64
}

/// At most the fraction in 4096ths, where its sign is this one, else 0.
pub(crate) fn bound_of(a: Cosine, sign: i8) -> u64
    ensures sign { 0 < result → a.sign ≡ sign }
    ensures below { result * a.den ≤ a.num * 4096 }
    ensures small { result ≤ 4096 }
{
    let num = high(a.num);
    let den = high(a.den);
    if a.sign != sign || num > den || den >= 1 << 51 {
        return 0;
    }
    num * 4096 / (den + 1)
}

// Whether the square of `size` is surely at most so many 4096ths of the product of two other numbers.
#[inline(always)]
fn is_below(size: u64, one: u64, other: u64, bound: u64) -> bool
    requires size { size ≤ 3 * 2 ^ 58 }
    requires one { one ≤ 2 ^ 58 }
    requires other { other ≤ 9 * 2 ^ 58 }
    requires bound { bound ≤ 4096 }
    ensures { IsTrue result → size * size * 4096 ≤ bound * (one * other) }
{
    let up = (size >> 28) + 1;
    squared(up) <= bounded(bound, one >> 34, other >> 34)
}

#[inline(always)]
fn squared(n: u64) -> u64
    requires { n ≤ 3 * 2 ^ 30 + 1 }
    ensures { result ≡ n * n }
{
    n * n
}

#[inline(always)]
fn bounded(bound: u64, one: u64, other: u64) -> u64
    requires bound { bound ≤ 4096 }
    requires one { one ≤ 2 ^ 24 }
    requires other { other ≤ 9 * 2 ^ 24 }
    ensures { result ≡ bound * (one * other) }
{
    bound * (one * other)
}

impl Bounds {
    ghost use Rattle.dihedral.specs.Fractions.{square_at};
    ghost use Rattle.dihedral.specs.Pairs.{square_of};
    ghost use Rattle.dihedral.specs.Quick.{IsWithinBounds, bound_for};
    ghost use Rattle.dihedral.specs.TetAngles.{edge_at};
    ghost use Rattle.dihedral.specs.TetFaces.{AreFaces};

    /// Bounds in 4096ths.
    pub(crate) fn new(least: u64, greatest: u64) -> Bounds
        requires least { least ≤ 4096 }
        requires greatest { greatest ≤ 4096 }
        ensures least { result.least ≡ least }
        ensures greatest { result.greatest ≡ greatest }
    {
        Bounds { least, greatest }
    }

    // The bound on the side of the angle between two faces.
    #[inline(always)]
    fn bound_for(&self, pair: Pair) -> u64
        ensures value { result ≡ bound_for self.now (square_of pair) }
        ensures small { result ≤ 4096 }
    {
        if pair.product < 0 {
            self.least
        } else {
            self.greatest
        }
    }

    // Whether the angle between two faces is surely within the bounds, where there are some.
    #[inline(always)]
    fn holds(&self, pair: Pair) -> bool
        requires least { 0 < self.now.least }
        requires greatest { 0 < self.now.greatest }
        ensures { IsTrue result → IsWithinBounds self.now (square_of pair) }
    {
        is_below(
            pair.product.unsigned_abs(),
            pair.one,
            pair.other,
            self.bound_for(pair),
        )
    }

    /// Whether all angles of a tetrahedron surely are.
    #[inline(always)]
    pub(crate) fn hold(&self, faces: &Faces) -> bool
        ensures { IsTrue result → (tet : List Place) → AreFaces tet faces.now → (k : ℕ) → k < 6 → IsWithinBounds self.now (square_at tet (edge_at k)) }
    {
        if self.least == 0 || self.greatest == 0 {
            return false;
        }
        if !self.holds(faces.pair_at(0)) {
            return false;
        }
        if !self.holds(faces.pair_at(1)) {
            return false;
        }
        if !self.holds(faces.pair_at(2)) {
            return false;
        }
        if !self.holds(faces.pair_at(3)) {
            return false;
        }
        if !self.holds(faces.pair_at(4)) {
            return false;
        }
        self.holds(faces.pair_at(5))
    }
}
