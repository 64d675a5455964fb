ghost use Rattle.std.specs.Prelude.{◌≡◌, ◌↔◌, ◌++◌, [], List, IsNone, IfSome};
ghost use Rattle.std.specs.Option.{ForSome};
ghost use Rattle.definitions.specs.declared.Extreme.{Extreme};
ghost use Rattle.definitions.specs.Angles.{angles, angles_of, extremes_of};
ghost use Rattle.angle_laws.specs.Bounds.{AreBounds};
ghost use Rattle.definitions.specs.Soundness.{IsPositive, corner_places};
ghost use Rattle.dihedral.specs.Fractions.{AreFractions};
ghost use Rattle.mesh_texts.specs.Report.{mesh_extremes};
ghost use Rattle.near_laws.specs.Near.{IsNumbered, IsPlaced};

use crate::Mesh;
use definitions::Extremes;
use dihedral::Remembering;
use st_base::Place;

/// The places of a tetrahedron's nodes.
fn corners(places: &[Place], nodes: [u32; 4]) -> [Place; 4]
    requires { IsNumbered places.now nodes }
    ensures { result ≡ corner_places places.now nodes }
{
    let [a, b, c, d] = nodes;
    [
        places[a as usize],
        places[b as usize],
        places[c as usize],
        places[d as usize],
    ]
}

/// Takes a tetrahedron.
fn take(running: &mut Remembering, places: &[Place], number: u64, nodes: [u32; 4])
    requires placed { IsPlaced places.now nodes }
    requires positive { IsPositive places.now nodes }
    ensures { (xs : List Extreme) → running.old ≡ extremes_of xs → running.new ≡ extremes_of (xs ++ angles_of places.now (number, nodes)) }
{
    running.take(corners(places, nodes), number, nodes);
}

/// The least and the greatest dihedral angle of a mesh, each at the first tetrahedron that has it, and there at the
/// first edge. None: the mesh has no tetrahedra.
pub fn extremes(mesh: &Mesh) -> Option<Extremes>
    ensures value { result ≡ mesh_extremes mesh.now }
    ensures none { IsNone result ↔ (mesh.now.tets ≡ []) }
    ensures bounds { IfSome result (λ e. AreBounds e (angles mesh.now)) }
    ensures fractions { ForSome result AreFractions }
{
    let places = mesh.places();
    let tets = mesh.tets();
    let mut running = Remembering::new();
    for (number, nodes) in tets.iter().enumerate() {
        take(&mut running, places, number as u64, *nodes);
    }
    running.found()
}
