ghost use Rattle.std.specs.Prelude.{◌≡◌, ◌*◌, ◌≤◌, ◌^◌, neg_ℤ, unsigned_abs};
ghost use Rattle.std.specs.Int.{int_signum};

use definitions::Cosine;

/// Two faces of a tetrahedron: the product of their normals, which point outwards, and the square of each.
#[derive(Clone, Copy)]
pub(crate) struct Pair {
    pub(crate) product: i64,
    pub(crate) one: u64,
    pub(crate) other: u64,
    ghost product_small: { unsigned_abs product ≤ 3 * 2 ^ 58 },
    ghost one_small: { one ≤ 2 ^ 58 },
    ghost other_small: { other ≤ 9 * 2 ^ 58 },
    ghost one_some: { 1 ≤ one },
    ghost other_some: { 1 ≤ other },
}

impl Pair {
    ghost use Rattle.dihedral.specs.Fractions.{IsFraction};
    ghost use Rattle.dihedral.specs.Pairs.{square_of};

    /// The square of the cosine of the angle between the faces, not in lowest terms.
    #[inline(always)]
    pub(crate) fn square(&self) -> Cosine
        ensures value { result ≡ square_of self.now }
        ensures fraction { IsFraction result }
    {
        let size = self.product.unsigned_abs();
        Cosine {
            sign: opposite_sign(self.product),
            num: size as u128 * size as u128,
            den: self.one as u128 * self.other as u128,
        }
    }
}

fn opposite_sign(n: i64) -> i8
    ensures { result ≡ int_signum (neg_ℤ n) }
{
    if n > 0 {
        -1
    } else if n < 0 {
        1
    } else {
        0
    }
}
