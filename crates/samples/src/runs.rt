ghost use Rattle.std.specs.Prelude.{◌≡◌, ◌^◌};
ghost use Rattle.samples.specs.Stars.{pairs_of_run, cubes_along_x, cubes_along_y, cubes_along_z, corners_of_run, star_of_runs, AreSmallInRun, AreWithin, AreWithinLine, AreWithinSquare, IsSmallStar};

use crate::star::{Cube, Line, Pair, Run, Square, Star};

/// The sums over the pairs of a run.
#[inline(always)]
fn pairs_of_run(run: Run) -> Line
    requires { AreSmallInRun run }
    ensures sums { result ≡ pairs_of_run run }
    ensures small { AreWithinLine (2 ^ 35) result }
{
    Line {
        low: run.low + run.second,
        middle: run.second + run.third,
        high: run.third + run.high,
    }
}

/// The values at the two corners in the middle of a run.
#[inline(always)]
fn corners_of_run(run: Run) -> Pair
    requires { AreSmallInRun run }
    ensures values { result ≡ corners_of_run run }
    ensures small { AreWithin (2 ^ 37) result }
{
    Pair {
        low: 8 * run.second,
        high: 8 * run.third,
    }
}

/// The sums over three cubes along x, by the pairs on their four edges along x.
#[inline(always)]
fn cubes_along_x(a: Line, b: Line, c: Line, d: Line) -> Line
    requires a { AreWithinLine (2 ^ 35) a }
    requires b { AreWithinLine (2 ^ 35) b }
    requires c { AreWithinLine (2 ^ 35) c }
    requires d { AreWithinLine (2 ^ 35) d }
    ensures sums { result ≡ cubes_along_x a b c d }
    ensures small { AreWithinLine (2 ^ 37) result }
{
    Line {
        low: (a.low + b.low) + (c.low + d.low),
        middle: (a.middle + b.middle) + (c.middle + d.middle),
        high: (a.high + b.high) + (c.high + d.high),
    }
}

/// The sums over the cubes on both sides of one along y, by the pairs on its four edges along x and those beyond.
#[inline(always)]
fn cubes_along_y(beyond: Square, a: Line, b: Line, c: Line, d: Line) -> Pair
    requires beyond { AreWithinSquare (2 ^ 35) beyond }
    requires a { AreWithinLine (2 ^ 35) a }
    requires b { AreWithinLine (2 ^ 35) b }
    requires c { AreWithinLine (2 ^ 35) c }
    requires d { AreWithinLine (2 ^ 35) d }
    ensures sums { result ≡ cubes_along_y beyond a b c d }
    ensures small { AreWithin (2 ^ 37) result }
{
    Pair {
        low: (beyond.low.low + a.middle) + (beyond.low.high + c.middle),
        high: (b.middle + beyond.high.low) + (d.middle + beyond.high.high),
    }
}

/// The same along z.
#[inline(always)]
fn cubes_along_z(beyond: Square, a: Line, b: Line, c: Line, d: Line) -> Pair
    requires beyond { AreWithinSquare (2 ^ 35) beyond }
    requires a { AreWithinLine (2 ^ 35) a }
    requires b { AreWithinLine (2 ^ 35) b }
    requires c { AreWithinLine (2 ^ 35) c }
    requires d { AreWithinLine (2 ^ 35) d }
    ensures sums { result ≡ cubes_along_z beyond a b c d }
    ensures small { AreWithin (2 ^ 37) result }
{
    Pair {
        low: (beyond.low.low + beyond.low.high) + (a.middle + b.middle),
        high: (c.middle + d.middle) + (beyond.high.low + beyond.high.high),
    }
}

#[inline(always)]
fn star_of_sums(x: Line, y: Pair, z: Pair, short: Cube) -> Star
    requires x { AreWithinLine (2 ^ 37) x }
    requires y { AreWithin (2 ^ 37) y }
    requires z { AreWithin (2 ^ 37) z }
    requires low { AreWithinSquare (2 ^ 37) short.low }
    requires high { AreWithinSquare (2 ^ 37) short.high }
    ensures star { result ≡ record { own = x.middle; x = record { low = x.low; high = x.high }; y = y; z = z; short = short } }
    ensures small { IsSmallStar result }
{
    Star {
        own: x.middle,
        x: Pair {
            low: x.low,
            high: x.high,
        },
        y,
        z,
        short,
    }
}

#[inline(always)]
fn corners_of_runs(a: Run, b: Run) -> Square
    requires a { AreSmallInRun a }
    requires b { AreSmallInRun b }
    ensures values { result ≡ record { low = corners_of_run a; high = corners_of_run b } }
    ensures small { AreWithinSquare (2 ^ 37) result }
{
    Square {
        low: corners_of_run(a),
        high: corners_of_run(b),
    }
}

/// The values around the centre of a cube, by the differences in the runs along its four edges along x, and the pairs
/// beyond its sides on the axes y and z.
#[inline(always)]
pub fn star_of_runs(a: Run, b: Run, c: Run, d: Run, y: Square, z: Square) -> Star
    requires a { AreSmallInRun a }
    requires b { AreSmallInRun b }
    requires c { AreSmallInRun c }
    requires d { AreSmallInRun d }
    requires y { AreWithinSquare (2 ^ 35) y }
    requires z { AreWithinSquare (2 ^ 35) z }
    ensures star { result ≡ star_of_runs a b c d y z }
    ensures small { IsSmallStar result }
{
    let short = Cube {
        low: corners_of_runs(a, b),
        high: corners_of_runs(c, d),
    };
    let a_pairs = pairs_of_run(a);
    let b_pairs = pairs_of_run(b);
    let c_pairs = pairs_of_run(c);
    let d_pairs = pairs_of_run(d);
    let along_x = cubes_along_x(a_pairs, b_pairs, c_pairs, d_pairs);
    let along_y = cubes_along_y(y, a_pairs, b_pairs, c_pairs, d_pairs);
    let along_z = cubes_along_z(z, a_pairs, b_pairs, c_pairs, d_pairs);
    star_of_sums(along_x, along_y, along_z, short)
}
