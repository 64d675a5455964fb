ghost use Rattle.std.specs.Prelude.{◌≡◌, ◌≤◌, ◌^◌, unsigned_abs};
ghost use Rattle.definitions.specs.Vectors.{det};
ghost use Rattle.determinants.specs.Bounds.{AreNear};

use crate::vectors::{cross, dot, minus};
use definitions::Place;

/// Six times the signed volume of a tetrahedron: the determinant of the vectors from its first node to the others.
pub fn det(tet: [Place; 4]) -> i64
    requires { AreNear tet }
    ensures value { result ≡ det tet }
    ensures small { unsigned_abs result ≤ 2 ^ 58 }
{
    let [a, b, c, d] = tet;
    dot(minus(b, a), cross(minus(c, a), minus(d, a)))
}
