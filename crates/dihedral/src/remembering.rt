ghost use Rattle.std.specs.Prelude.{◌≡◌, ◌++◌, ℕ, List, None, pos, ◌<ℤ◌, IsTrue, All};
ghost use Rattle.std.specs.Option.{ForSome};
ghost use Rattle.definitions.specs.declared.Extreme.{Extreme};
ghost use Rattle.definitions.specs.declared.Place.{Place};
ghost use Rattle.definitions.specs.Angles.{extremes_of};
ghost use Rattle.definitions.specs.Vectors.{det};
ghost use Rattle.determinants.specs.Bounds.{AreNear};
ghost use Rattle.dihedral.specs.Fractions.{AreFractions};
ghost use Rattle.dihedral.specs.Shapes.{Covers, CoversShape};
ghost use Rattle.dihedral.specs.Stars.{star_at};
ghost use Rattle.dihedral.specs.TetAngles.{six_angles};

use crate::bounded::Bounded;
use crate::shape::{SHAPES, Shape};
use crate::star::star_shapes;
use definitions::{Extremes, Place};
use std::marker::Model;

/// The extremes of the angles of tetrahedra so far, which are taken one after another.
///
/// In most meshes most tetrahedra are whole lattice tetrahedra. Their six shapes are remembered once one of each was
/// taken, and another of one of these costs a comparison; `knows_star` says that all six were, so that the six at a
/// vertex cost nothing. Contracts see what [`Remembering::found`] gives.
///
/// To take a tetrahedron of a remembered shape changes nothing.
#[derive(Drop)]
pub struct Remembering {
    running: Bounded,
    seen: [Shape; SHAPES],
    knows_star: bool,
}

impl Model for Remembering {
    ghost use Rattle.std.specs.Prelude.{All, IsTrue, Option};
    ghost use Rattle.dihedral.specs.Stars.{star_shapes};
    ghost use Rattle.definitions.specs.declared.Extremes.{Extremes};
    ghost use Rattle.dihedral.specs.Shapes.{CoversShape};

    ghost Value = { Option Extremes };

    ghost view = { λ r. r.running };

    ghost invariant = { λ r. All (CoversShape r.running) r.seen × (IsTrue r.knows_star → All (CoversShape r.running) star_shapes) };
}

impl Remembering {
    /// Of no tetrahedra.
    pub fn new() -> Remembering
        ensures { result ≡ None }
    {
        Remembering {
            running: Bounded::new(),
            seen: [Shape::point(); SHAPES],
            knows_star: false,
        }
    }

    // Whether a shape is remembered.
    #[inline(always)]
    fn has(&self, shape: &Shape) -> bool
        ensures { IsTrue result → CoversShape self.now shape.now }
    {
        let slot = shape.slot();
        self.seen[slot].is(shape)
    }

    /// Whether a tetrahedron has a remembered shape: then taking it changes nothing.
    #[inline(always)]
    pub fn knows(&self, tet: [Place; 4]) -> bool
        ensures { IsTrue result → AreNear tet → pos 0 <ℤ det tet → (number : ℕ) → (nodes : List ℕ) → (xs : List Extreme) → self.now ≡ extremes_of xs → self.now ≡ extremes_of (xs ++ six_angles tet number nodes) }
    {
        let shape = Shape::new(tet);
        self.has(&shape)
    }

    /// Whether the six lattice tetrahedra at a vertex are known, wherever it stands: then taking them changes nothing.
    #[inline(always)]
    pub fn knows_star(&self) -> bool
        ensures { IsTrue result → (own : Place) → All (Covers self.now) (star_at own) }
    {
        self.knows_star
    }

    /// Notes whether the six lattice tetrahedra at a vertex have remembered shapes.
    pub fn learn_star(&mut self)
        ensures { self.new ≡ self.old }
    {
        let [a, b, c, d, e, f] = star_shapes();
        if self.has(&a)
            && self.has(&b)
            && self.has(&c)
            && self.has(&d)
            && self.has(&e)
            && self.has(&f)
        {
            self.knows_star = true;
        }
    }

    /// Takes tetrahedron `number` with these nodes at these places.
    pub fn take(&mut self, tet: [Place; 4], number: u64, nodes: [u32; 4])
        requires near { AreNear tet }
        requires positive { pos 0 <ℤ det tet }
        ensures { (xs : List Extreme) → self.old ≡ extremes_of xs → self.new ≡ extremes_of (xs ++ six_angles tet number nodes) }
    {
        let shape = Shape::new(tet);
        if self.has(&shape) {
            return;
        }
        self.running.take(tet, number, nodes);
        if shape.is_whole() {
            let slot = shape.slot();
            self.seen[slot] = shape;
        }
    }

    /// The extremes of all that was taken, if there was a tetrahedron.
    pub fn found(self) -> Option<Extremes>
        ensures value { result ≡ self }
        ensures fractions { ForSome result AreFractions }
    {
        self.running.found()
    }
}
