ghost use Rattle.std.specs.Prelude.{◌≡◌, ◌++◌, List, All, Some, None, IsSome, pos, ◌<ℤ◌};
ghost use Rattle.std.specs.Option.{ForSome};
ghost use Rattle.definitions.specs.declared.Extreme.{Extreme};
ghost use Rattle.definitions.specs.Angles.{extremes_of, is_less};
ghost use Rattle.definitions.specs.Lists.{lesser};
ghost use Rattle.definitions.specs.Vectors.{det};
ghost use Rattle.determinants.specs.Bounds.{AreNear};
ghost use Rattle.dihedral.specs.Fractions.{AreFractions, IsAngle, IsFraction};
ghost use Rattle.dihedral.specs.TetAngles.{six_angles};

use crate::fractions::compare;
use crate::running::Running;
use definitions::{Cosine, Extreme, Extremes, Place};
use std::cmp::Ordering;

/// The extremes of two lists of angles, the first standing before the second, from those of each.
pub fn fold(a: Option<Extremes>, b: Option<Extremes>) -> Option<Extremes>
    requires a { ForSome a AreFractions }
    requires b { ForSome b AreFractions }
    ensures joined { (xs ys : List Extreme) → All IsAngle ys → a ≡ extremes_of xs → b ≡ extremes_of ys → result ≡ extremes_of (xs ++ ys) }
    ensures fractions { ForSome result AreFractions }
    ensures first { b ≡ None → result ≡ a }
    ensures second { a ≡ None → result ≡ b }
    ensures some { IsSome a → IsSome result }
{
    let Some(first) = a else {
        return b;
    };
    let Some(second) = b else {
        return a;
    };
    Some(Extremes {
        least: smaller(first.least, second.least),
        greatest: larger(first.greatest, second.greatest),
    })
}

/// The extremes of the six angles of tetrahedron `number` with these nodes at these places.
pub fn extremes_of(tet: [Place; 4], number: u64, nodes: [u32; 4]) -> Extremes
    requires near { AreNear tet }
    requires positive { pos 0 <ℤ det tet }
    ensures value { Some result ≡ extremes_of (six_angles tet number nodes) }
    ensures fractions { AreFractions result }
    ensures angles { All IsAngle (six_angles tet number nodes) }
{
    let mut running = Running::new();
    running.take(tet, number, nodes);
    match running.found() {
        Some(extremes) => extremes,
        None => unreachable!(),
    }
}

// The smaller angle, the first where they are one.
pub(crate) fn smaller(first: Extreme, second: Extreme) -> Extreme
    requires first { IsAngle first }
    requires second { IsAngle second }
    ensures value { result ≡ lesser (λ a b. is_less b.cosine a.cosine) (Some first) second }
    ensures angle { IsAngle result }
{
    if is_less(first.cosine, second.cosine) {
        second
    } else {
        first
    }
}

// The larger angle, the first where they are one.
pub(crate) fn larger(first: Extreme, second: Extreme) -> Extreme
    requires first { IsAngle first }
    requires second { IsAngle second }
    ensures value { result ≡ lesser (λ a b. is_less a.cosine b.cosine) (Some first) second }
    ensures angle { IsAngle result }
{
    if is_less(second.cosine, first.cosine) {
        second
    } else {
        first
    }
}

#[inline(always)]
pub(crate) fn is_less(a: Cosine, b: Cosine) -> bool
    requires a { IsFraction a }
    requires b { IsFraction b }
    ensures { result ≡ is_less a b }
{
    compare(a, b) == Ordering::Less
}
