ghost use Rattle.std.specs.Prelude.{◌≡◌, ◌++◌, List, None, pos, ◌<ℤ◌};
ghost use Rattle.std.specs.Option.{ForSome};
ghost use Rattle.definitions.specs.declared.Extreme.{Extreme};
ghost use Rattle.definitions.specs.Angles.{extremes_of};
ghost use Rattle.definitions.specs.Vectors.{det};
ghost use Rattle.determinants.specs.Bounds.{AreNear};
ghost use Rattle.dihedral.specs.Fractions.{AreFractions};
ghost use Rattle.dihedral.specs.Shapes.{Covers, Widens};
ghost use Rattle.dihedral.specs.TetAngles.{six_angles};

use crate::bounds::Bounds;
use crate::faces::Faces;
use crate::running::Running;
use definitions::{Extremes, Place};
use std::marker::Model;

/// The same as [`Running`], with bounds that decide of most tetrahedra before an angle is compared exactly.
#[derive(Drop)]
pub(crate) struct Bounded {
    running: Running,
    bounds: Bounds,
}

impl Model for Bounded {
    ghost use Rattle.std.specs.Prelude.{Option};
    ghost use Rattle.definitions.specs.declared.Extremes.{Extremes};
    ghost use Rattle.dihedral.specs.Quick.{Bound};

    ghost Value = { Option Extremes };

    ghost view = { λ r. r.running };

    ghost invariant = { λ r. Bound r.bounds r.running };
}

impl Bounded {
    /// Of no tetrahedra.
    pub(crate) fn new() -> Bounded
        ensures { result ≡ None }
    {
        let running = Running::new();
        let bounds = running.bounds();
        Bounded { running, bounds }
    }

    /// Takes tetrahedron `number` with these nodes at these places.
    pub(crate) fn take(&mut self, tet: [Place; 4], number: u64, nodes: [u32; 4])
        requires near { AreNear tet }
        requires positive { pos 0 <ℤ det tet }
        ensures angles { (xs : List Extreme) → self.old ≡ extremes_of xs → self.new ≡ extremes_of (xs ++ six_angles tet number nodes) }
        ensures covers { Covers self.new tet }
        ensures widens { Widens self.old self.new }
    {
        let faces = Faces::new(tet);
        if self.bounds.hold(&faces) {
            return;
        }
        self.running.take(tet, number, nodes);
        self.bounds = self.running.bounds();
    }

    /// The extremes of all that was taken, if there was a tetrahedron.
    pub(crate) fn found(self) -> Option<Extremes>
        ensures value { result ≡ self }
        ensures fractions { ForSome result AreFractions }
    {
        self.running.found()
    }
}
