ghost use Rattle.std.specs.Prelude.{◌≡◌};
ghost use Rattle.dihedral.specs.Stars.{star_shapes};

use crate::shape::{Shape, vector};

/// The shapes of the six lattice tetrahedra at a vertex, by the vectors from it to its neighbours upwards.
pub(crate) fn star_shapes() -> [Shape; 6]
    ensures { result ≡ star_shapes }
{
    let first = vector(8192, 0, 0);
    let second = vector(0, 8192, 0);
    let third = vector(-4096, -4096, 4096);
    let fourth = vector(4096, -4096, 4096);
    let fifth = vector(-4096, 4096, 4096);
    let sixth = vector(4096, 4096, 4096);
    let seventh = vector(0, 0, 8192);
    [
        Shape::by(first, sixth, fourth),
        Shape::by(second, fifth, sixth),
        Shape::by(third, fourth, seventh),
        Shape::by(third, seventh, fifth),
        Shape::by(fourth, sixth, seventh),
        Shape::by(fifth, seventh, sixth),
    ]
}
