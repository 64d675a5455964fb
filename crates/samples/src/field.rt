ghost use Rattle.std.specs.Prelude.{◌≡◌, ℕ, ◌+◌, ◌*◌, ◌<◌, ◌≤◌, ◌^◌, All, IfOk, ◌-◌, ℤ, pos, negsuc, ◌+ℤ◌, ◌*ℤ◌, ◌≤ℤ◌, ◌<ℤ◌, length, unsigned_abs, slice_index_or, map, max, neg_ℤ, if◌then◌else◌};
ghost use Rattle.definitions.specs.Lattice.{InDomain, IsDims};
ghost use Rattle.definitions.specs.Values.{Field as FieldValue, IsField, difference, field_of, corner_difference, cube_sum, value, sign_of, nearest, is_inside};
ghost use Rattle.samples.specs.Corners.{IsCorner, IsCube, corner_vertex, centre_vertex, half_units};
ghost use Rattle.samples.specs.Rows.{row_start, is_row_inside, difference_along, edge_sum, side_sum};
ghost use Rattle.samples.specs.SignWords.{TellCorners};
ghost use Rattle.samples.specs.Stars.{IsCornerInside, place};

use crate::level::Level;
use crate::sign::sign_of;
use crate::sign_words::{SignWords, signs_from, words_of};
use st_base::{Dims, NoMemory, Samples, Sign, Vertex, Volume};
use std::alloc::Global;
use std::marker::Model;

/// The differences of an image's samples to a level, from which the value at each vertex of the
/// lattice follows.
///
/// At a corner of the image the difference is `2 v - 2 L` for its sample `v` and the level `L`, or its
/// negative where the region lies below the level. At a corner of the padding it is
/// `-max(1, |difference at the nearest corner of the image|)`. The value at a corner is eight times its
/// difference, and at the centre of a cube the sum over its eight corners.
///
/// The sizes are at least 1 and within the limit, and there is one difference for each sample, x fastest, each below
/// 2^34 in size. The signs of the differences are kept, too, 64 in each element of `signs`.
#[derive(Drop)]
pub struct Field {
    dims: Dims,
    samples: Samples,
    level: Level,
    below: bool,
    signs: Vec<SignWords>,
}

impl Model for Field {
    ghost use Rattle.std.specs.Prelude.{map};
    ghost use Rattle.definitions.specs.Values.{Field as FieldValue, IsField, difference, field_of};
    ghost use Rattle.samples.specs.SignWords.{AreWordsOf};

    ghost Value = { FieldValue };

    ghost view = { λ f. field_of f.dims f.samples.numbers f.level f.below };

    ghost invariant = { λ f. IsField (field_of f.dims f.samples.numbers f.level f.below) × AreWordsOf (map (difference f.level f.below) f.samples.numbers) f.signs.items };
}

/// What is the same in all of a row of corners along x: where its nearest samples start, and whether
/// it runs through the image.
#[derive(Clone, Copy)]
struct Row {
    start: usize,
    inside: bool,
}

impl Field {
    /// The field of an image at a level, of the region above it or below it.
    ///
    /// ```rust
    /// let level = Level::new(1).expect(&rt, "a level");
    /// let field = Field::new(alloc, &volume, level, false)?;
    /// let value = field.value(Vertex { h: 2, y: 2, x: 2 });
    /// ```
    #[tactic(auto, using(crate::proofs::Fields::field_of_parts, crate::proofs::Fields::few_samples))]
    pub fn new(alloc: Global, volume: &Volume, level: Level, below: bool) -> Result<Field, NoMemory>
        ensures { IfOk result (λ field. field ≡ field_of volume.now.dims volume.now.samples level below) }
    {
        let signs = words_of(alloc, volume.samples(), level, below)?;
        Ok(Field {
            dims: volume.dims(),
            samples: volume.samples().copy(alloc)?,
            level,
            below,
            signs,
        })
    }

    /// The same of a volume that is given up: its samples are taken over, and memory is asked for their signs alone.
    #[tactic(auto, using(crate::proofs::Fields::field_of_parts, crate::proofs::Fields::few_samples))]
    pub fn of_volume(
        alloc: Global,
        volume: Volume,
        level: Level,
        below: bool,
    ) -> Result<Field, NoMemory>
        ensures { IfOk result (λ field. field ≡ field_of volume.dims volume.samples level below) }
    {
        let signs = words_of(alloc, volume.samples(), level, below)?;
        Ok(Field {
            dims: volume.dims(),
            samples: volume.into_samples(),
            level,
            below,
            signs,
        })
    }

    /// The sizes of the image.
    pub fn dims(&self) -> Dims
        ensures value { result ≡ self.now.dims }
        ensures field { IsField self.now }
    {
        self.dims
    }

    /// Difference `n`, from 0.
    #[inline(always)]
    fn number(&self, n: usize) -> i64
        requires { n < length self.now.differences }
        ensures { result ≡ slice_index_or self.now.differences n (pos 0) }
    {
        difference(self.level, self.below, self.samples.get(n))
    }

    #[tactic(auto, using(crate::proofs::Fields::few_differences))]
    fn row(&self, j: u32, k: u32) -> Row
        ensures start { result.start ≡ row_start self.now.dims j k }
        ensures inside { result.inside ≡ is_row_inside self.now.dims j k }
        ensures room { result.start + self.now.dims.nx ≤ length self.now.differences }
        ensures few { length self.now.differences ≤ 2 ^ 26 }
    {
        let Dims { nx, ny, nz } = self.dims;
        let row = nearest(nz, k) as usize * ny as usize + nearest(ny, j) as usize;
        Row {
            start: row * nx as usize,
            inside: is_inside(ny, j) && is_inside(nz, k),
        }
    }

    #[inline]
    #[tactic(auto, unfolding(crate::specs::Rows::difference_along))]
    fn difference_along(&self, row: Row, i: u32) -> i64
        requires room { row.start + self.now.dims.nx ≤ length self.now.differences }
        ensures value { result ≡ difference_along self.now row.start row.inside i }
        ensures small { unsigned_abs result < 2 ^ 34 }
        ensures sizes { IsDims self.now.dims }
    {
        let nx = self.dims.nx;
        let near = self.number(row.start + nearest(nx, i) as usize);
        padded(is_inside(nx, i) && row.inside, near)
    }

    /// The difference at a corner, counted from the padding corner: `i` from 0 to `nx + 1`, and so on.
    #[inline]
    #[tactic(auto, unfolding(crate::specs::Rows::difference_along, definitions::specs::Values::corner_difference))]
    pub fn difference(&self, i: u32, j: u32, k: u32) -> i64
        ensures value { result ≡ corner_difference self.now i j k }
        ensures small { unsigned_abs result < 2 ^ 34 }
        ensures sizes { IsDims self.now.dims }
    {
        self.difference_along(self.row(j, k), i)
    }

    /// The difference at a corner of the image, by the place of its sample.
    #[inline(always)]
    #[tactic(auto, unfolding(definitions::specs::Values::corner_difference))]
    pub(crate) fn difference_at(&self, n: usize, _i: u32, _j: u32, _k: u32) -> i64
        requires inside { IsCornerInside self.now.dims _i _j _k }
        requires place { n ≡ place self.now.dims _i _j _k }
        ensures value { result ≡ corner_difference self.now _i _j _k }
        ensures small { unsigned_abs result < 2 ^ 34 }
        ensures sizes { IsDims self.now.dims }
    {
        let _ = &self.dims;
        self.number(n)
    }

    /// The signs of the corners of row `(j, k)`, from the one before corner `i` on.
    #[inline(always)]
    pub fn signs_along(&self, i: u32, j: u32, k: u32) -> SignWords
        requires { i ≤ self.now.dims.nx + 2 }
        ensures { TellCorners self.now i j k result }
    {
        let row = self.row(j, k);
        if row.inside {
            let first = row.start + (i as usize).saturating_sub(2);
            signs_from(&self.signs, first).padded(2 - i.min(2), self.dims.nx + 2 - i)
        } else {
            SignWords {
                plus: 0,
                zero: 0,
                minus: u64::MAX,
            }
        }
    }

    #[inline]
    #[tactic(auto, using(lattice_counts::proofs::Sizes::ny_small))]
    fn edge(&self, i: u32, j: u32, k: u32) -> i64
        requires { j ≤ self.now.dims.ny }
        ensures value { result ≡ edge_sum self.now i j k }
        ensures small { unsigned_abs result < 2 ^ 35 }
        ensures sizes { IsDims self.now.dims }
    {
        let near = self.difference(i, j, k);
        near + self.difference(i, j + 1, k)
    }

    /// The sum of the differences at the four corners `(i, j..=j + 1, k..=k + 1)`, which are one side
    /// of a cube.
    #[inline]
    #[tactic(auto, using(lattice_counts::proofs::Sizes::nz_small))]
    pub fn side(&self, i: u32, j: u32, k: u32) -> i64
        requires j { j ≤ self.now.dims.ny }
        requires k { k ≤ self.now.dims.nz }
        ensures value { result ≡ side_sum self.now i j k }
        ensures small { unsigned_abs result < 2 ^ 36 }
        ensures sizes { IsDims self.now.dims }
    {
        let near = self.edge(i, j, k);
        near + self.edge(i, j, k + 1)
    }

    /// The sum of the differences at the eight corners of the cube with the least corner `(i, j, k)`,
    /// counted from the padding corner.
    #[inline]
    #[tactic(auto, using(lattice_counts::proofs::Sizes::nx_small, crate::proofs::ValuesAt::cube_by_sides))]
    pub fn cube(&self, i: u32, j: u32, k: u32) -> i64
        requires i { i ≤ self.now.dims.nx }
        requires j { j ≤ self.now.dims.ny }
        requires k { k ≤ self.now.dims.nz }
        ensures value { result ≡ cube_sum self.now i j k }
        ensures small { unsigned_abs result < 2 ^ 37 }
    {
        let near = self.side(i, j, k);
        near + self.side(i + 1, j, k)
    }

    /// The value at a vertex of the lattice.
    #[inline]
    #[tactic(auto, unfolding(definitions::specs::Values::value))]
    pub fn value(&self, v: Vertex) -> i64
        requires { InDomain self.now.dims v }
        ensures value { result ≡ value self.now v }
        ensures small { unsigned_abs result ≤ 2 ^ 37 }
    {
        if v.h % 2 == 0 {
            8 * self.difference(v.x / 2, v.y / 2, v.h / 2)
        } else {
            self.cube(v.x / 2, v.y / 2, v.h / 2)
        }
    }

    /// The sign of the value at a vertex of the lattice.
    #[inline]
    pub fn sign(&self, v: Vertex) -> Sign
        requires { InDomain self.now.dims v }
        ensures { result ≡ sign_of (value self.now v) }
    {
        sign_of(self.value(v))
    }

    /// The value at a corner by its signed indices: from -1 to `nx`, and so on.
    pub fn corner(&self, i: i32, j: i32, k: i32) -> i64
        requires { IsCorner self.now.dims i j k }
        ensures value { result ≡ value self.now (corner_vertex i j k) }
        ensures small { unsigned_abs result ≤ 2 ^ 37 }
    {
        8 * self.difference(from_padding(i), from_padding(j), from_padding(k))
    }

    /// The value at the centre of the cube with the least corner `(i, j, k)`: from -1 to `nx - 1`, and
    /// so on.
    pub fn centre(&self, i: i32, j: i32, k: i32) -> i64
        requires { IsCube self.now.dims i j k }
        ensures value { result ≡ value self.now (centre_vertex i j k) }
        ensures small { unsigned_abs result ≤ 2 ^ 37 }
    {
        self.cube(from_padding(i), from_padding(j), from_padding(k))
    }
}

#[inline(always)]
pub(crate) fn difference(level: Level, below: bool, sample: i64) -> i64
    requires { unsigned_abs sample ≤ 2 ^ 32 }
    ensures value { result ≡ difference level below sample }
    ensures small { unsigned_abs result < 2 ^ 34 }
{
    let twice = level.twice();
    let doubled = 2 * sample;
    if below {
        twice - doubled
    } else {
        doubled - twice
    }
}

fn nearest(n: u32, i: u32) -> u32
    requires { 1 ≤ n }
    ensures value { result ≡ nearest n i }
    ensures below { result < n }
{
    i.saturating_sub(1).min(n - 1)
}

fn is_inside(n: u32, i: u32) -> bool
    ensures { result ≡ is_inside n i }
{
    1 <= i && i <= n
}

fn from_padding(i: i32) -> u32
    requires { negsuc 0 ≤ℤ i }
    ensures corner { half_units 2 i ≡ 2 * result }
    ensures centre { half_units 3 i ≡ 2 * result + 1 }
    ensures index { pos result ≡ i +ℤ pos 1 }
{
    (i64::from(i) + 1) as u32
}

fn padded(inside: bool, near: i64) -> i64
    requires { unsigned_abs near < 2 ^ 34 }
    ensures value { result ≡ if inside then near else neg_ℤ (pos (max 1 (unsigned_abs near))) }
    ensures small { unsigned_abs result < 2 ^ 34 }
{
    if inside { near } else { -near.abs().max(1) }
}
