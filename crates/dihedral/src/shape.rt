ghost use Rattle.std.specs.Prelude.{◌≡◌, ◌<◌, ◌≤◌, ◌-ℤ◌, unsigned_abs, IsTrue};
ghost use Rattle.definitions.specs.declared.Place.{Place};
ghost use Rattle.definitions.specs.Places.{place};
ghost use Rattle.determinants.specs.Bounds.{AreNear};

use definitions::Place;

/// How many shapes are remembered.
pub(crate) const SHAPES: usize = 8;

/// A tetrahedron, but for where it stands: the vectors from its first node to the others.
#[derive(Clone, Copy)]
pub(crate) struct Shape {
    pub(crate) second: Place,
    pub(crate) third: Place,
    pub(crate) fourth: Place,
}

// Whether two places are one.
#[inline(always)]
fn same(p: Place, q: Place) -> bool
    ensures { IsTrue result → p ≡ q }
{
    p.x == q.x && p.y == q.y && p.z == q.z
}

// The difference of two numbers that are near to one another.
#[inline(always)]
fn less(a: i64, b: i64) -> i64
    ensures { unsigned_abs (a -ℤ b) ≤ 12286 → result ≡ a -ℤ b }
{
    a.wrapping_sub(b)
}

// The vector from `p` to `q`, where they are near to one another.
#[inline(always)]
fn from_to(p: Place, q: Place) -> Place
    ensures x { unsigned_abs (q.x -ℤ p.x) ≤ 12286 → result.x ≡ q.x -ℤ p.x }
    ensures y { unsigned_abs (q.y -ℤ p.y) ≤ 12286 → result.y ≡ q.y -ℤ p.y }
    ensures z { unsigned_abs (q.z -ℤ p.z) ≤ 12286 → result.z ≡ q.z -ℤ p.z }
{
    Place {
        x: less(q.x, p.x),
        y: less(q.y, p.y),
        z: less(q.z, p.z),
    }
}

/// The vector with these coordinates.
#[inline(always)]
pub(crate) fn vector(x: i64, y: i64, z: i64) -> Place
    ensures { result ≡ place x y z }
{
    Place { x, y, z }
}

// Whether a vector leads from a vertex of the lattice to another.
fn is_whole(p: Place) -> bool {
    p.x % 4096 == 0 && p.y % 4096 == 0 && p.z % 4096 == 0
}

impl Shape {
    ghost use Rattle.std.specs.Prelude.{pos};
    ghost use Rattle.definitions.specs.Places.{place};
    ghost use Rattle.dihedral.specs.Shapes.{IsShapeOf, shape_by};

    /// The shape of a tetrahedron whose places are near to one another.
    #[inline(always)]
    pub(crate) fn new(tet: [Place; 4]) -> Shape
        ensures { AreNear tet → IsShapeOf tet result }
    {
        let [a, b, c, d] = tet;
        Shape {
            second: from_to(a, b),
            third: from_to(a, c),
            fourth: from_to(a, d),
        }
    }

    /// The shape with these vectors.
    #[inline(always)]
    pub(crate) fn by(second: Place, third: Place, fourth: Place) -> Shape
        ensures { result ≡ shape_by second third fourth }
    {
        Shape {
            second,
            third,
            fourth,
        }
    }

    /// The shape of four nodes at one place.
    pub(crate) fn point() -> Shape
        ensures second { result.second ≡ place (pos 0) (pos 0) (pos 0) }
        ensures third { result.third ≡ place (pos 0) (pos 0) (pos 0) }
        ensures fourth { result.fourth ≡ place (pos 0) (pos 0) (pos 0) }
    {
        let zero = Place { x: 0, y: 0, z: 0 };
        Shape {
            second: zero,
            third: zero,
            fourth: zero,
        }
    }

    /// Whether two shapes are one.
    #[inline(always)]
    pub(crate) fn is(&self, other: &Shape) -> bool
        ensures { IsTrue result → self.now ≡ other.now }
    {
        same(self.second, other.second)
            && same(self.third, other.third)
            && same(self.fourth, other.fourth)
    }

    /// Where it is remembered: each of the shapes of whole lattice tetrahedra at a place of its own.
    #[inline(always)]
    pub(crate) fn slot(&self) -> usize
        ensures { result < SHAPES }
    {
        let mixed = self
            .third
            .x
            .wrapping_add(self.second.y.wrapping_mul(2))
            .wrapping_add(self.second.x.wrapping_mul(3));
        (mixed.unsigned_abs() / 4096 % 8) as usize
    }

    /// Whether its nodes stand as vertices of the lattice do.
    pub(crate) fn is_whole(&self) -> bool {
        is_whole(self.second) && is_whole(self.third) && is_whole(self.fourth)
    }
}
