ghost use Rattle.std.specs.Prelude.{◌≡◌, ◌^◌, ◌<◌, ◌≤◌, ◌*ℤ◌, pos, unsigned_abs};
ghost use Rattle.samples.specs.Stars.{pairs, sum_pairs, squares, sum_squares, star_of_planes, AreSmallInLine, AreSmallInPlane, AreWithin, AreWithinSquare, IsSmallStar};

/// Numbers at two places of an axis, one after the other.
#[derive(Clone, Copy)]
pub struct Pair {
    pub low: i64,
    pub high: i64,
}

/// Pairs along x at two places of the y axis.
#[derive(Clone, Copy)]
pub struct Square {
    pub low: Pair,
    pub high: Pair,
}

/// Squares at two places of the z axis.
#[derive(Clone, Copy)]
pub struct Cube {
    pub low: Square,
    pub high: Square,
}

/// The value at a vertex and those at the other ends of its edges: of the long ones along each axis, and of
/// the short ones.
#[derive(Clone, Copy)]
pub struct Star {
    pub own: i64,
    pub x: Pair,
    pub y: Pair,
    pub z: Pair,
    pub short: Cube,
}

/// Numbers at three places of the x axis.
#[derive(Clone, Copy)]
pub struct Line {
    pub low: i64,
    pub middle: i64,
    pub high: i64,
}

/// Lines at three places of the y axis.
#[derive(Clone, Copy)]
pub struct Plane {
    pub low: Line,
    pub middle: Line,
    pub high: Line,
}

/// Numbers at four places of the x axis.
#[derive(Clone, Copy)]
pub struct Run {
    pub low: i64,
    pub second: i64,
    pub third: i64,
    pub high: i64,
}

/// The sums over the pairs of a line.
#[inline(always)]
fn pairs(line: Line) -> Pair
    requires { AreSmallInLine line }
    ensures sums { result ≡ pairs line }
    ensures small { AreWithin (2 ^ 35) result }
{
    Pair {
        low: line.low + line.middle,
        high: line.middle + line.high,
    }
}

#[inline(always)]
fn sum_pairs(a: Pair, b: Pair) -> Pair
    requires a { AreWithin (2 ^ 35) a }
    requires b { AreWithin (2 ^ 35) b }
    ensures sums { result ≡ sum_pairs a b }
    ensures small { AreWithin (2 ^ 36) result }
{
    Pair {
        low: a.low + b.low,
        high: a.high + b.high,
    }
}

/// The sums over the squares of a plane.
#[inline(always)]
fn squares(plane: Plane) -> Square
    requires { AreSmallInPlane plane }
    ensures sums { result ≡ squares plane }
    ensures small { AreWithinSquare (2 ^ 36) result }
{
    let low = pairs(plane.low);
    let middle = pairs(plane.middle);
    let high = pairs(plane.high);
    Square {
        low: sum_pairs(low, middle),
        high: sum_pairs(middle, high),
    }
}

#[inline(always)]
fn sum_fours(a: Pair, b: Pair) -> Pair
    requires a { AreWithin (2 ^ 36) a }
    requires b { AreWithin (2 ^ 36) b }
    ensures sums { result ≡ sum_pairs a b }
    ensures small { AreWithin (2 ^ 37) result }
{
    Pair {
        low: a.low + b.low,
        high: a.high + b.high,
    }
}

#[inline(always)]
fn sum_squares(a: Square, b: Square) -> Square
    requires a { AreWithinSquare (2 ^ 36) a }
    requires b { AreWithinSquare (2 ^ 36) b }
    ensures sums { result ≡ sum_squares a b }
    ensures small { AreWithinSquare (2 ^ 37) result }
{
    Square {
        low: sum_fours(a.low, b.low),
        high: sum_fours(a.high, b.high),
    }
}

/// The values at two corners, by their differences.
#[inline(always)]
fn eightfold(low: i64, high: i64) -> Pair
    requires low { unsigned_abs low < 2 ^ 34 }
    requires high { unsigned_abs high < 2 ^ 34 }
    ensures values { result ≡ record { low = pos 8 *ℤ low; high = pos 8 *ℤ high } }
    ensures small { AreWithin (2 ^ 37) result }
{
    Pair {
        low: 8 * low,
        high: 8 * high,
    }
}

/// The values around a corner, by the differences in the three planes around it.
#[inline(always)]
pub fn star_of_planes(low: Plane, middle: Plane, high: Plane) -> Star
    requires low { AreSmallInPlane low }
    requires middle { AreSmallInPlane middle }
    requires high { AreSmallInPlane high }
    ensures star { result ≡ star_of_planes low middle high }
    ensures small { IsSmallStar result }
{
    let low_squares = squares(low);
    let middle_squares = squares(middle);
    let high_squares = squares(high);
    Star {
        own: 8 * middle.middle.middle,
        x: eightfold(middle.middle.low, middle.middle.high),
        y: eightfold(middle.low.middle, middle.high.middle),
        z: eightfold(low.middle.middle, high.middle.middle),
        short: Cube {
            low: sum_squares(low_squares, middle_squares),
            high: sum_squares(middle_squares, high_squares),
        },
    }
}
