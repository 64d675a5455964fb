ghost use Rattle.std.specs.Prelude.{◌≡◌, ◌+◌, ◌*◌, ◌≤◌, ◌<◌, ◌^◌, List, pos, ◌<ℤ◌, ◌+ℤ◌, neg_ℤ, unsigned_abs};
ghost use Rattle.definitions.specs.declared.Place.{Place};
ghost use Rattle.definitions.specs.Vectors.{det, dot};
ghost use Rattle.bcc_lattice.specs.Bounds.{IsSmallPlace};
ghost use Rattle.determinants.specs.Bounds.{AreNear};
ghost use Rattle.dihedral.specs.Fractions.{IsFraction, square_at};
ghost use Rattle.dihedral.specs.TetAngles.{edge_at};

use crate::pair::Pair;
use definitions::{Cosine, Place};
use determinants::{cross, dot, minus};

/// The faces of a tetrahedron, each opposite a node, by the pairs that meet at edges 0 to 5.
#[derive(Clone, Copy)]
pub(crate) struct Faces {
    edge_0: Pair,
    edge_1: Pair,
    edge_2: Pair,
    edge_3: Pair,
    edge_4: Pair,
    edge_5: Pair,
}

impl Faces {
    ghost use Rattle.dihedral.specs.Pairs.{square_of};
    ghost use Rattle.dihedral.specs.TetFaces.{AreFaces, HaveNormals, closing};

    /// The normals add up to nothing: those of the three faces at the first node tell of the fourth.
    #[inline(always)]
    pub(crate) fn new(tet: [Place; 4]) -> Faces
        requires near { AreNear tet }
        requires positive { pos 0 <ℤ det tet }
        ensures { AreFaces tet result }
    {
        let [a, b, c, d] = tet;
        let along = minus(b, a);
        let across = minus(c, a);
        let up = minus(d, a);
        Faces::by(cross(up, across), cross(along, up), cross(across, along))
    }

    // The faces opposite the second, third and fourth node have these normals.
    #[inline(always)]
    fn by(second: Place, third: Place, fourth: Place) -> Faces
        requires second { IsSmallPlace 301891592 second }
        requires third { IsSmallPlace 301891592 third }
        requires fourth { IsSmallPlace 301891592 fourth }
        requires some_first { 1 ≤ unsigned_abs (dot (closing second third fourth) (closing second third fourth)) }
        requires some_second { 1 ≤ unsigned_abs (dot second second) }
        requires some_third { 1 ≤ unsigned_abs (dot third third) }
        requires some_fourth { 1 ≤ unsigned_abs (dot fourth fourth) }
        ensures { HaveNormals (closing second third fourth) second third fourth result }
    {
        let second_square = square(second);
        let third_square = square(third);
        let fourth_square = square(fourth);
        let second_third = dot(third, second);
        let second_fourth = dot(second, fourth);
        let third_fourth = dot(fourth, third);
        let first_second = with_closing(second_square, second_third, second_fourth);
        let first_third = with_closing(third_square, second_third, third_fourth);
        let first_fourth = with_closing(fourth_square, second_fourth, third_fourth);
        let first_square = closing_square(first_second, first_third, first_fourth);
        Faces {
            edge_0: Pair {
                product: third_fourth,
                one: fourth_square,
                other: third_square,
            },
            edge_1: Pair {
                product: second_fourth,
                one: second_square,
                other: fourth_square,
            },
            edge_2: Pair {
                product: second_third,
                one: third_square,
                other: second_square,
            },
            edge_3: Pair {
                product: first_fourth,
                one: fourth_square,
                other: first_square,
            },
            edge_4: Pair {
                product: first_third,
                one: third_square,
                other: first_square,
            },
            edge_5: Pair {
                product: first_second,
                one: second_square,
                other: first_square,
            },
        }
    }

    /// The faces that meet at edge 0 to 5.
    #[inline(always)]
    pub(crate) fn pair_at(&self, edge: u8) -> Pair
        requires { edge < 6 }
        ensures { (tet : List Place) → AreFaces tet self.now → square_of result ≡ square_at tet (edge_at edge) }
    {
        match edge {
            0 => self.edge_0,
            1 => self.edge_1,
            2 => self.edge_2,
            3 => self.edge_3,
            4 => self.edge_4,
            _ => self.edge_5,
        }
    }

    /// The square of the cosine at edge 0 to 5, not in lowest terms.
    pub(crate) fn square_at(&self, edge: u8) -> Cosine
        requires { edge < 6 }
        ensures value { (tet : List Place) → AreFaces tet self.now → result ≡ square_at tet (edge_at edge) }
        ensures fraction { IsFraction result }
    {
        self.pair_at(edge).square()
    }
}

// The square of a normal's length.
#[inline(always)]
fn square(n: Place) -> u64
    requires small { IsSmallPlace 301891592 n }
    requires some { 1 ≤ unsigned_abs (dot n n) }
    ensures value { pos result ≡ dot n n }
    ensures small { result ≤ 2 ^ 58 }
    ensures some { 1 ≤ result }
{
    dot(n, n) as u64
}

// The product of a vector with what closes it and two others, from its square and its products with these.
#[inline(always)]
fn with_closing(square: u64, one: i64, other: i64) -> i64
    requires square { square ≤ 2 ^ 58 }
    requires one { unsigned_abs one ≤ 2 ^ 58 }
    requires other { unsigned_abs other ≤ 2 ^ 58 }
    ensures value { result ≡ neg_ℤ ((pos square +ℤ one) +ℤ other) }
    ensures small { unsigned_abs result ≤ 3 * 2 ^ 58 }
{
    -(square as i64 + one + other)
}

// The square of what closes three vectors, from its products with these.
#[inline(always)]
fn closing_square(one: i64, other: i64, third: i64) -> u64
    requires one { unsigned_abs one ≤ 3 * 2 ^ 58 }
    requires other { unsigned_abs other ≤ 3 * 2 ^ 58 }
    requires third { unsigned_abs third ≤ 3 * 2 ^ 58 }
    requires some { pos 0 <ℤ neg_ℤ ((one +ℤ other) +ℤ third) }
    ensures value { pos result ≡ neg_ℤ ((one +ℤ other) +ℤ third) }
    ensures small { result ≤ 9 * 2 ^ 58 }
    ensures some { 1 ≤ result }
{
    -(one + other + third) as u64
}
