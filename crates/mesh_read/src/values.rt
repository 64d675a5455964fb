ghost use Rattle.std.specs.Prelude.{◌≡◌};
ghost use Rattle.mesh_files.specs.Files.{AreNodes, AreTets};

use st_base::Place;
use std::marker::Model;

/// The nodes of a file: the number of the first, 0 or 1, and the places of all of them, fewer than
/// 2^30, each coordinate below 1,048,576 in size.
#[derive(Drop)]
pub struct Nodes {
    first: u32,
    places: Vec<Place>,
}

impl Model for Nodes {
    ghost use Rattle.mesh_files.specs.Files.{Nodes as NodesValue, AreNodes};

    ghost Value = { NodesValue };

    ghost view = { λ n. record { first = n.first; places = n.places.items } };

    ghost invariant = { λ n. AreNodes (record { first = n.first; places = n.places.items }) };
}

impl Nodes {
    /// Nodes with numbers from `first` on.
    pub fn new(first: u32, places: Vec<Place>) -> Nodes
        requires { AreNodes (record { first = first; places = places.items }) }
        ensures { result ≡ record { first = first; places = places.items } }
    {
        Nodes { first, places }
    }

    /// The number of the first node.
    pub fn first(&self) -> u32
        ensures value { result ≡ self.now.first }
        ensures nodes { AreNodes self.now }
    {
        self.first
    }

    /// The places of the nodes, in units of 1/8192.
    pub fn places(&self) -> &[Place]
        ensures value { result.now ≡ self.now.places }
        ensures nodes { AreNodes self.now }
    {
        self.places.as_slice()
    }
}

/// The tetrahedra of a file, fewer than 2^30, each as the ranks of its four nodes: their numbers less
/// that of the first node.
#[derive(Drop)]
pub struct Tets {
    tets: Vec<[u32; 4]>,
}

impl Model for Tets {
    ghost use Rattle.std.specs.Prelude.{List, ℕ};
    ghost use Rattle.mesh_files.specs.Files.{AreTets};

    ghost Value = { List (List ℕ) };

    ghost view = { λ t. t.tets.items };

    ghost invariant = { λ t. AreTets t.tets.items };
}

impl Tets {
    /// These tetrahedra.
    pub fn new(tets: Vec<[u32; 4]>) -> Tets
        requires { AreTets tets.items }
        ensures { result ≡ tets.items }
    {
        Tets { tets }
    }

    /// The ranks of the nodes of each tetrahedron.
    pub fn tets(&self) -> &[[u32; 4]]
        ensures value { result.now ≡ self.now }
        ensures tets { AreTets self.now }
    {
        self.tets.as_slice()
    }
}
