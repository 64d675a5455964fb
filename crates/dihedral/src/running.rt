ghost use Rattle.std.specs.Prelude.{◌≡◌, ◌<◌, ◌++◌, List, [], ◌∷◌, Some, None, pos, ◌<ℤ◌, slice_index};
ghost use Rattle.std.specs.Option.{ForSome};
ghost use Rattle.definitions.specs.declared.Extreme.{Extreme};
ghost use Rattle.definitions.specs.declared.Place.{Place};
ghost use Rattle.definitions.specs.Angles.{extremes_of, is_less};
ghost use Rattle.definitions.specs.Lists.{lesser};
ghost use Rattle.definitions.specs.Vectors.{det};
ghost use Rattle.determinants.specs.Bounds.{AreNear};
ghost use Rattle.dihedral.specs.Fractions.{AreFractions, IsAngle, angle_in_lowest_terms, in_lowest_terms as in_lowest_terms_lem};
ghost use Rattle.dihedral.specs.Quick.{Bound};
ghost use Rattle.dihedral.specs.Shapes.{Between, Covers, Widens};
ghost use Rattle.dihedral.specs.TetFaces.{AreFaces};
ghost use Rattle.dihedral.specs.TetAngles.{angle_of, edge_at, six_angles};

use crate::bounds::{Bounds, bound_of};
use crate::extremes::is_less;
use crate::faces::Faces;
use crate::fractions::lowest;
use definitions::{Extreme, Extremes, Place};
use std::marker::Model;

/// The extremes of the angles of tetrahedra so far, each angle compared exactly.
///
/// No fraction is brought to lowest terms before the end. Contracts see what [`Running::found`] gives.
#[derive(Drop)]
pub(crate) struct Running {
    // not in lowest terms
    found: Option<Extremes>,
}

impl Model for Running {
    ghost use Rattle.std.specs.Prelude.{Option, option_map};
    ghost use Rattle.std.specs.Option.{ForSome};
    ghost use Rattle.definitions.specs.declared.Extremes.{Extremes};
    ghost use Rattle.dihedral.specs.Fractions.{AreFractions, extremes_in_lowest_terms};

    ghost Value = { Option Extremes };

    ghost view = { λ running. option_map extremes_in_lowest_terms running.found };

    ghost invariant = { λ running. ForSome running.found AreFractions };
}

impl Running {
    /// Of no tetrahedra.
    pub(crate) fn new() -> Running
        ensures { result ≡ None }
    {
        Running { found: None }
    }

    /// Takes tetrahedron `number` with these nodes at these places.
    pub(crate) fn take(&mut self, tet: [Place; 4], number: u64, nodes: [u32; 4])
        requires near { AreNear tet }
        requires positive { pos 0 <ℤ det tet }
        ensures angles { (xs : List Extreme) → self.old ≡ extremes_of xs → self.new ≡ extremes_of (xs ++ six_angles tet number nodes) }
        ensures covers { Covers self.new tet }
        ensures widens { Widens self.old self.new }
    {
        let faces = Faces::new(tet);
        self.offer(&angle_at(&faces, 0, number, nodes));
        self.offer(&angle_at(&faces, 1, number, nodes));
        self.offer(&angle_at(&faces, 2, number, nodes));
        self.offer(&angle_at(&faces, 3, number, nodes));
        self.offer(&angle_at(&faces, 4, number, nodes));
        self.offer(&angle_at(&faces, 5, number, nodes));
    }

    // Takes one angle.
    #[inline(always)]
    fn offer(&mut self, angle: &Extreme)
        requires { IsAngle angle.now }
        ensures angle { (xs : List Extreme) → self.old ≡ extremes_of xs → self.new ≡ extremes_of (xs ++ angle_in_lowest_terms angle.now ∷ []) }
        ensures covers { Between self.new (in_lowest_terms_lem angle.now.cosine) }
        ensures widens { Widens self.old self.new }
    {
        match &mut self.found {
            Some(found) => improve(found, angle),
            None => {
                self.found = Some(Extremes {
                    least: *angle,
                    greatest: *angle,
                });
            }
        }
    }

    /// Bounds that are within the extremes so far.
    pub(crate) fn bounds(&self) -> Bounds
        ensures { Bound result self.now }
    {
        match &self.found {
            Some(found) => Bounds::new(
                bound_of(found.least.cosine, 1),
                bound_of(found.greatest.cosine, -1),
            ),
            None => Bounds::new(0, 0),
        }
    }

    /// The extremes of all that was taken, if there was a tetrahedron.
    pub(crate) fn found(self) -> Option<Extremes>
        ensures value { result ≡ self }
        ensures fractions { ForSome result AreFractions }
    {
        let found = self.found?;
        Some(Extremes {
            least: in_lowest_terms(found.least),
            greatest: in_lowest_terms(found.greatest),
        })
    }
}

// An angle stands for an extreme that it passes.
#[inline(always)]
fn improve(found: &mut Extremes, angle: &Extreme)
    requires found { AreFractions found.old }
    requires angle { IsAngle angle.now }
    ensures least { found.new.least ≡ lesser (λ a b. is_less b.cosine a.cosine) (Some found.old.least) angle.now }
    ensures greatest { found.new.greatest ≡ lesser (λ a b. is_less a.cosine b.cosine) (Some found.old.greatest) angle.now }
    ensures fractions { AreFractions found.new }
{
    if is_less(found.least.cosine, angle.cosine) {
        found.least = *angle;
    }
    if is_less(angle.cosine, found.greatest.cosine) {
        found.greatest = *angle;
    }
}

// The angle at edge 0 to 5, not in lowest terms.
#[inline(always)]
fn angle_at(faces: &Faces, edge: u8, number: u64, nodes: [u32; 4]) -> Extreme
    requires { edge < 6 }
    ensures value { (tet : List Place) → AreFaces tet faces.now → angle_in_lowest_terms result ≡ angle_of tet number nodes (edge_at edge) }
    ensures angle { IsAngle result }
{
    Extreme {
        cosine: faces.square_at(edge),
        tet: number,
        ends: ends_of(nodes, edge),
    }
}

// The two nodes of edge 0 to 5.
fn ends_of(nodes: [u32; 4], edge: u8) -> [u32; 2]
    requires { edge < 6 }
    ensures { result ≡ slice_index nodes (slice_index (edge_at edge) 0) ∷ slice_index nodes (slice_index (edge_at edge) 1) ∷ [] }
{
    match edge {
        0 => [nodes[0], nodes[1]],
        1 => [nodes[0], nodes[2]],
        2 => [nodes[0], nodes[3]],
        3 => [nodes[1], nodes[2]],
        4 => [nodes[1], nodes[3]],
        _ => [nodes[2], nodes[3]],
    }
}

fn in_lowest_terms(angle: Extreme) -> Extreme
    requires { IsAngle angle }
    ensures value { result ≡ angle_in_lowest_terms angle }
    ensures angle { IsAngle result }
{
    Extreme {
        cosine: lowest(angle.cosine),
        ..angle
    }
}
