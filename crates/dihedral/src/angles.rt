ghost use Rattle.std.specs.Prelude.{◌≡◌, ◌<◌, pos, ◌<ℤ◌};
ghost use Rattle.definitions.specs.Angles.{edge_cosine};
ghost use Rattle.definitions.specs.Vectors.{det};
ghost use Rattle.determinants.specs.Bounds.{AreNear};
ghost use Rattle.dihedral.specs.Fractions.{IsFraction};
ghost use Rattle.dihedral.specs.TetAngles.{edge_at};

use crate::faces::Faces;
use crate::fractions::lowest;
use definitions::{Cosine, Place};

/// The square of the cosine of the angle at an edge, with the cosine's sign, in lowest terms.
///
/// Edges 0 to 5 are those between the nodes 0 and 1, 0 and 2, 0 and 3, 1 and 2, 1 and 3, 2 and 3.
pub fn edge_cosine(tet: [Place; 4], edge: u8) -> Cosine
    requires near { AreNear tet }
    requires positive { pos 0 <ℤ det tet }
    requires edge { edge < 6 }
    ensures value { result ≡ edge_cosine tet (edge_at edge) }
    ensures fraction { IsFraction result }
{
    lowest(Faces::new(tet).square_at(edge))
}
