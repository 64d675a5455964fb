ghost use Rattle.std.specs.Prelude.{◌≡◌, ℕ, ◌+◌, ◌-◌, ◌*◌, ◌/◌, ◌%◌, ◌^◌, ◌<◌, ◌≤◌, min, true};
ghost use Rattle.std.specs.Int.{bit_at};
ghost use Rattle.definitions.specs.Lattice.{IsDims, layers};
ghost use Rattle.lattice_counts.specs.Counts.{row_len};
ghost use Rattle.snap_rule.specs.Alike.{AreAround, TellAround, TellColumns, TellSides};

use samples::{Field, SignWords};

/// The lines of corners along x around a row of vertices, by the numbers of their corners from the
/// padding corner on the axes y and z, both ends included.
#[derive(Clone, Copy)]
struct Lines {
    j_low: u32,
    j_high: u32,
    k_low: u32,
    k_high: u32,
}

/// The lines within 3 half units of row `j` of layer `h` on the axes y and z.
#[tactic(auto, using(lattice_counts::proofs::Sizes::ny_small, lattice_counts::proofs::Sizes::nz_small))]
fn lines_around(field: &Field, h: u32, j: u32) -> Lines
    requires layer { h < layers field.now.dims }
    requires row { j < row_len field.now.dims.ny h }
    ensures around { AreAround field.now result h (j * 2 + h % 2) }
    ensures j { result.j_high < 2 ^ 31 }
    ensures k { result.k_high < 2 ^ 31 }
    ensures sizes { IsDims field.now.dims }
{
    let dims = field.dims();
    let far = 1 + h % 2;
    let k = h / 2;
    Lines {
        j_low: j.saturating_sub(1),
        j_high: (j + far).min(dims.ny + 1),
        k_low: k.saturating_sub(1),
        k_high: (k + far).min(dims.nz + 1),
    }
}

/// Every sign of everything.
const ALL: SignWords = SignWords {
    plus: u64::MAX,
    zero: u64::MAX,
    minus: u64::MAX,
};

/// The signs of the sides with the number `k`, from the one before side `i` on. A side is the corners of the lines
/// with two of their numbers.
#[inline(always)]
fn side_signs(field: &Field, lines: Lines, i: u32, k: u32) -> SignWords
    requires i { i ≤ field.now.dims.nx + 2 }
    requires j { lines.j_high < 2 ^ 31 }
    ensures { TellSides field.now lines i k result }
{
    let mut signs = ALL;
    for j in lines.j_low..lines.j_high + 1 {
        signs = signs.and(field.signs_along(i, j, k));
    }
    signs
}

/// The signs of the columns of corners in the lines, from the one before column `i` on.
#[inline(always)]
fn column_signs(field: &Field, lines: Lines, i: u32) -> SignWords
    requires i { i ≤ field.now.dims.nx + 2 }
    requires j { lines.j_high < 2 ^ 31 }
    requires k { lines.k_high < 2 ^ 31 }
    ensures { TellColumns field.now lines i result }
{
    let mut signs = ALL;
    for k in lines.k_low..lines.k_high + 1 {
        signs = signs.and(side_signs(field, lines, i, k));
    }
    signs
}

/// The bits of which the two next ones are set, too; where `h` is odd, the three next ones.
#[inline(always)]
fn with_next(word: u64, h: u32) -> u64
    ensures { (b : ℕ) → bit_at result b ≡ 1 → (t : ℕ) → t ≤ 2 + h % 2 → bit_at word (b + t) ≡ 1 }
{
    word & word >> 1 & word >> 2 & word >> (2 + h % 2)
}

/// The signs that all corners around a vertex have, for the vertices of a row from number `i` on.
pub fn signs_around(field: &Field, h: u32, j: u32, i: u32) -> SignWords
    requires layer { h < layers field.now.dims }
    requires row { j < row_len field.now.dims.ny h }
    requires column { i < row_len field.now.dims.nx h }
    ensures { TellAround field.now h j i result }
{
    let lines = lines_around(field, h, j);
    let signs = column_signs(field, lines, i);
    SignWords {
        plus: with_next(signs.plus, h),
        zero: with_next(signs.zero, h),
        minus: with_next(signs.minus, h),
    }
}
