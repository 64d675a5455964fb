ghost use Rattle.std.specs.Prelude.{◌≡◌, All};
ghost use Rattle.definitions.specs.Soundness.{IsPositive};
ghost use Rattle.mesh_lists.specs.Made.{IsMade};
ghost use Rattle.near_laws.specs.Near.{IsPlaced};

use st_base::Place;
use std::marker::Model;

/// The mesh of a field with some shares: the places of its nodes, and its tetrahedra.
///
/// It is the mesh of some field: there is no other way to one than [`crate::build_mesh`], so that each tetrahedron has a
/// volume above zero.
#[derive(Drop)]
pub struct Mesh {
    places: Vec<Place>,
    tets: Vec<[u32; 4]>,
}

impl Model for Mesh {
    ghost use Rattle.definitions.specs.Mesh.{Mesh as MeshValue};
    ghost use Rattle.mesh_lists.specs.Made.{IsMade};

    ghost Value = { MeshValue };

    ghost view = { λ m. record { places = m.places.items; tets = m.tets.items } };

    ghost invariant = { λ m. IsMade (record { places = m.places.items; tets = m.tets.items }) };
}

impl Mesh {
    /// The mesh of these places and tetrahedra.
    pub(crate) fn new(places: Vec<Place>, tets: Vec<[u32; 4]>) -> Mesh
        requires { IsMade (record { places = places.items; tets = tets.items }) }
        ensures { result ≡ record { places = places.items; tets = tets.items } }
    {
        Mesh { places, tets }
    }

    /// The places of the nodes, in the order of their numbers.
    pub fn places(&self) -> &[Place]
        ensures { result.now ≡ self.now.places }
    {
        &self.places
    }

    /// The tetrahedra, each as the numbers of its four nodes.
    pub fn tets(&self) -> &[[u32; 4]]
        ensures tets { result.now ≡ self.now.tets }
        ensures placed { All (IsPlaced self.now.places) self.now.tets }
        ensures positive { All (IsPositive self.now.places) self.now.tets }
    {
        &self.tets
    }
}
