ghost use Rattle.std.specs.Prelude.{◌≡◌, ◌+◌, ◌^◌, ◌≤◌, true, unsigned_abs};
ghost use Rattle.definitions.specs.Lattice.{IsDims};
ghost use Rattle.definitions.specs.Values.{row_sum};
ghost use Rattle.samples.specs.Stars.{IsCornerInside, line, plane, run, corner_star, centre_star, place, AreSmallInLine, AreSmallInPlane, AreSmallInRun, AreWithinSquare, IsSmallStar};

use crate::field::Field;
use crate::runs::star_of_runs;
use crate::star::{Line, Pair, Plane, Run, Square, Star, star_of_planes};
use st_base::Dims;

impl Field {
    /// Where the sample of a corner of the image stands.
    #[inline(always)]
    fn place(&self, i: u32, j: u32, k: u32) -> usize
        requires { IsCornerInside self.now.dims i j k }
        ensures { result ≡ place self.now.dims i j k }
    {
        let Dims { nx, ny, .. } = self.dims();
        let row = (k as usize - 1) * ny as usize + (j as usize - 1);
        row * nx as usize + (i as usize - 1)
    }

    #[inline(always)]
    #[tactic(auto, using(lattice_counts::proofs::Sizes::nx_small))]
    fn line_inside(&self, i: u32, j: u32, k: u32) -> Line
        requires first { IsCornerInside self.now.dims i j k }
        requires last { i + 1 + 1 ≤ self.now.dims.nx }
        ensures line { result ≡ line self.now i j k }
        ensures small { AreSmallInLine result }
    {
        let n = self.place(i, j, k);
        let low = self.difference_at(n, i, j, k);
        let middle = self.difference_at(n + 1, i + 1, j, k);
        let high = self.difference_at(n + 2, i + 1 + 1, j, k);
        Line { low, middle, high }
    }

    #[inline(always)]
    #[tactic(auto, using(lattice_counts::proofs::Sizes::nx_small))]
    fn line_of_any(&self, i: u32, j: u32, k: u32) -> Line
        requires { i + 1 ≤ self.now.dims.nx }
        ensures line { result ≡ line self.now i j k }
        ensures small { AreSmallInLine result }
    {
        let low = self.difference(i, j, k);
        let middle = self.difference(i + 1, j, k);
        let high = self.difference(i + 1 + 1, j, k);
        Line { low, middle, high }
    }

    /// The differences in a line of three corners, which may be known to be of the image.
    #[inline(always)]
    fn line(&self, inside: bool, i: u32, j: u32, k: u32) -> Line
        requires i { i + 1 ≤ self.now.dims.nx }
        requires first { inside ≡ true → IsCornerInside self.now.dims i j k }
        requires last { inside ≡ true → i + 1 + 1 ≤ self.now.dims.nx }
        ensures line { result ≡ line self.now i j k }
        ensures small { AreSmallInLine result }
    {
        if inside {
            self.line_inside(i, j, k)
        } else {
            self.line_of_any(i, j, k)
        }
    }

    #[inline(always)]
    #[tactic(auto, using(lattice_counts::proofs::Sizes::ny_small))]
    fn plane(&self, inside: bool, i: u32, j: u32, k: u32) -> Plane
        requires sizes { IsDims self.now.dims }
        requires i { i + 1 ≤ self.now.dims.nx }
        requires j { j + 1 ≤ self.now.dims.ny }
        requires first { inside ≡ true → IsCornerInside self.now.dims i j k }
        requires last_i { inside ≡ true → i + 1 + 1 ≤ self.now.dims.nx }
        requires last_j { inside ≡ true → j + 1 + 1 ≤ self.now.dims.ny }
        ensures plane { result ≡ plane self.now i j k }
        ensures small { AreSmallInPlane result }
    {
        let low = self.line(inside, i, j, k);
        let middle = self.line(inside, i, j + 1, k);
        let high = self.line(inside, i, j + 1 + 1, k);
        Plane { low, middle, high }
    }

    /// The values at a corner of the image and at the other ends of its edges, by the least corner of the three on each
    /// axis around it, which may be known to be all of the image.
    #[inline(always)]
    #[tactic(auto, using(lattice_counts::proofs::Sizes::nz_small))]
    pub fn corner_star(&self, inside: bool, i: u32, j: u32, k: u32) -> Star
        requires sizes { IsDims self.now.dims }
        requires i { i + 1 ≤ self.now.dims.nx }
        requires j { j + 1 ≤ self.now.dims.ny }
        requires k { k + 1 ≤ self.now.dims.nz }
        requires first { inside ≡ true → IsCornerInside self.now.dims i j k }
        requires last { inside ≡ true → IsCornerInside self.now.dims (i + 1 + 1) (j + 1 + 1) (k + 1 + 1) }
        ensures star { result ≡ corner_star self.now i j k }
        ensures small { IsSmallStar result }
    {
        let low = self.plane(inside, i, j, k);
        let middle = self.plane(inside, i, j, k + 1);
        let high = self.plane(inside, i, j, k + 1 + 1);
        star_of_planes(low, middle, high)
    }

    #[inline(always)]
    #[tactic(auto, using(lattice_counts::proofs::Sizes::nx_small))]
    fn run_inside(&self, i: u32, j: u32, k: u32) -> Run
        requires first { IsCornerInside self.now.dims i j k }
        requires last { i + 1 + 1 + 1 ≤ self.now.dims.nx }
        ensures run { result ≡ run self.now i j k }
        ensures small { AreSmallInRun result }
    {
        let n = self.place(i, j, k);
        let low = self.difference_at(n, i, j, k);
        let second = self.difference_at(n + 1, i + 1, j, k);
        let third = self.difference_at(n + 2, i + 1 + 1, j, k);
        let high = self.difference_at(n + 3, i + 1 + 1 + 1, j, k);
        Run {
            low,
            second,
            third,
            high,
        }
    }

    #[inline(always)]
    #[tactic(auto, using(lattice_counts::proofs::Sizes::nx_small))]
    fn run_of_any(&self, i: u32, j: u32, k: u32) -> Run
        requires { i + 1 + 1 ≤ self.now.dims.nx }
        ensures run { result ≡ run self.now i j k }
        ensures small { AreSmallInRun result }
    {
        let low = self.difference(i, j, k);
        let second = self.difference(i + 1, j, k);
        let third = self.difference(i + 1 + 1, j, k);
        let high = self.difference(i + 1 + 1 + 1, j, k);
        Run {
            low,
            second,
            third,
            high,
        }
    }

    /// The differences in a run of four corners, which may be known to be of the image.
    #[inline(always)]
    fn run(&self, inside: bool, i: u32, j: u32, k: u32) -> Run
        requires i { i + 1 + 1 ≤ self.now.dims.nx }
        requires first { inside ≡ true → IsCornerInside self.now.dims i j k }
        requires last { inside ≡ true → i + 1 + 1 + 1 ≤ self.now.dims.nx }
        ensures run { result ≡ run self.now i j k }
        ensures small { AreSmallInRun result }
    {
        if inside {
            self.run_inside(i, j, k)
        } else {
            self.run_of_any(i, j, k)
        }
    }

    #[inline(always)]
    #[tactic(auto, using(lattice_counts::proofs::Sizes::nx_small))]
    fn two_inside(&self, i: u32, j: u32, k: u32) -> i64
        requires first { IsCornerInside self.now.dims i j k }
        requires last { i + 1 ≤ self.now.dims.nx }
        ensures sum { result ≡ row_sum self.now i j k }
        ensures small { unsigned_abs result ≤ 2 ^ 35 }
    {
        let n = self.place(i, j, k);
        let low = self.difference_at(n, i, j, k);
        low + self.difference_at(n + 1, i + 1, j, k)
    }

    #[inline(always)]
    #[tactic(auto, using(lattice_counts::proofs::Sizes::nx_small))]
    fn two_of_any(&self, i: u32, j: u32, k: u32) -> i64
        requires { i ≤ self.now.dims.nx }
        ensures sum { result ≡ row_sum self.now i j k }
        ensures small { unsigned_abs result ≤ 2 ^ 35 }
    {
        let low = self.difference(i, j, k);
        low + self.difference(i + 1, j, k)
    }

    /// The sum of the differences at two corners along x, which may be known to be of the image.
    #[inline(always)]
    fn two(&self, inside: bool, i: u32, j: u32, k: u32) -> i64
        requires i { i ≤ self.now.dims.nx }
        requires first { inside ≡ true → IsCornerInside self.now.dims i j k }
        requires last { inside ≡ true → i + 1 ≤ self.now.dims.nx }
        ensures sum { result ≡ row_sum self.now i j k }
        ensures small { unsigned_abs result ≤ 2 ^ 35 }
    {
        if inside {
            self.two_inside(i, j, k)
        } else {
            self.two_of_any(i, j, k)
        }
    }

    /// The values at the centre of a cube of the image and at the other ends of its edges, by the least corner of the
    /// four on each axis around it, which may be known to be all of the image.
    #[inline(always)]
    #[tactic(auto, using(lattice_counts::proofs::Sizes::nx_small, lattice_counts::proofs::Sizes::ny_small, lattice_counts::proofs::Sizes::nz_small))]
    pub fn centre_star(&self, inside: bool, i: u32, j: u32, k: u32) -> Star
        requires sizes { IsDims self.now.dims }
        requires i { i + 1 + 1 ≤ self.now.dims.nx }
        requires j { j + 1 + 1 ≤ self.now.dims.ny }
        requires k { k + 1 + 1 ≤ self.now.dims.nz }
        requires first { inside ≡ true → IsCornerInside self.now.dims i j k }
        requires last { inside ≡ true → IsCornerInside self.now.dims (i + 1 + 1 + 1) (j + 1 + 1 + 1) (k + 1 + 1 + 1) }
        ensures star { result ≡ centre_star self.now i j k }
        ensures small { IsSmallStar result }
    {
        let y = two_pairs(
            self.two(inside, i + 1, j, k + 1),
            self.two(inside, i + 1, j, k + 1 + 1),
            self.two(inside, i + 1, j + 1 + 1 + 1, k + 1),
            self.two(inside, i + 1, j + 1 + 1 + 1, k + 1 + 1),
        );
        let z = two_pairs(
            self.two(inside, i + 1, j + 1, k),
            self.two(inside, i + 1, j + 1 + 1, k),
            self.two(inside, i + 1, j + 1, k + 1 + 1 + 1),
            self.two(inside, i + 1, j + 1 + 1, k + 1 + 1 + 1),
        );
        let a = self.run(inside, i, j + 1, k + 1);
        let b = self.run(inside, i, j + 1 + 1, k + 1);
        let c = self.run(inside, i, j + 1, k + 1 + 1);
        let d = self.run(inside, i, j + 1 + 1, k + 1 + 1);
        star_of_runs(a, b, c, d, y, z)
    }
}

#[inline(always)]
fn two_pairs(a: i64, b: i64, c: i64, d: i64) -> Square
    requires a { unsigned_abs a ≤ 2 ^ 35 }
    requires b { unsigned_abs b ≤ 2 ^ 35 }
    requires c { unsigned_abs c ≤ 2 ^ 35 }
    requires d { unsigned_abs d ≤ 2 ^ 35 }
    ensures pairs { result ≡ record { low = record { low = a; high = b }; high = record { low = c; high = d } } }
    ensures small { AreWithinSquare (2 ^ 35) result }
{
    Square {
        low: Pair { low: a, high: b },
        high: Pair { low: c, high: d },
    }
}
