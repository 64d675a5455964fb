ghost use Rattle.std.specs.Prelude.{◌≡◌};
ghost use Rattle.definitions.specs.Places.{place};
ghost use Rattle.lattice_laws.specs.Kinds.{Kind as KindOfTet};
ghost use Rattle.moved_matrix.specs.Matrix.{AreForms, StandsAs};
ghost use Rattle.moved_matrix.specs.Kinds.{as_kind};

use bcc_lattice::Tet;
use definitions::Place;

/// The six kinds of lattice tetrahedra, by the directions of their vertices from the lowest one.
#[derive(Clone, Copy)]
pub(crate) enum Kind {
    Of146,
    Of256,
    Of347,
    Of357,
    Of467,
    Of567,
}

/// The kind of a lattice tetrahedron.
pub(crate) fn kind_of(tet: &Tet) -> Kind
    ensures { (κ : KindOfTet) → StandsAs tet.now.at κ → κ ≡ as_kind result }
{
    let [lowest, second, third, _] = tet.at;
    if second.h == lowest.h {
        if second.x > lowest.x {
            Kind::Of146
        } else {
            Kind::Of256
        }
    } else if second.x > lowest.x {
        Kind::Of467
    } else if second.y > lowest.y {
        Kind::Of567
    } else if third.x > lowest.x {
        Kind::Of347
    } else {
        Kind::Of357
    }
}

/// The forms that give twice the weights of a point in a lattice tetrahedron of this kind.
pub(crate) fn forms_of(kind: Kind) -> [Place; 4]
    ensures { AreForms result (as_kind kind) }
{
    match kind {
        Kind::Of146 => [xyz(-1, 0, -1), xyz(1, 0, -1), xyz(0, -1, 1), xyz(0, 1, 1)],
        Kind::Of256 => [xyz(0, -1, -1), xyz(0, 1, -1), xyz(-1, 0, 1), xyz(1, 0, 1)],
        Kind::Of347 => [xyz(0, 1, -1), xyz(-1, -1, 0), xyz(1, -1, 0), xyz(0, 1, 1)],
        Kind::Of357 => [xyz(1, 0, -1), xyz(-1, -1, 0), xyz(-1, 1, 0), xyz(1, 0, 1)],
        Kind::Of467 => [xyz(-1, 0, -1), xyz(1, -1, 0), xyz(1, 1, 0), xyz(-1, 0, 1)],
        Kind::Of567 => [xyz(0, -1, -1), xyz(-1, 1, 0), xyz(1, 1, 0), xyz(0, -1, 1)],
    }
}

// A form by its coordinates.
fn xyz(x: i64, y: i64, z: i64) -> Place
    ensures { result ≡ place x y z }
{
    Place { x, y, z }
}
