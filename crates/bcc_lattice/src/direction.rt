ghost use Rattle.std.specs.Prelude.{◌≡◌, ◌≤◌};
ghost use Rattle.std.specs.Option.{SomeIff};

use std::marker::Model;

/// One of the seven directions upwards in the order of vertices, 1 to 7.
///
/// Directions 1, 2 and 7 are 2 half units along x, y and z. Directions 3 to 6 are 1 half unit along
/// each axis, upwards in z: (-1, -1), (1, -1), (-1, 1) and (1, 1) in x and y. Contracts see the number.
///
/// The number is at least 1 and at most 7.
#[derive(Clone, Copy)]
pub struct Dir {
    number: u8,
}

impl Model for Dir {
    ghost use Rattle.std.specs.Prelude.{ℕ};
    ghost use Rattle.bcc_lattice.specs.Directions.{IsDirection};

    ghost Value = { ℕ };

    ghost view = { λ dir. dir.number };

    ghost invariant = { λ dir. IsDirection dir.number };

    ghost inverse = { λ n. record { number = n } };
}

impl Dir {
    ghost use Rattle.bcc_lattice.specs.Directions.{IsDirection};

    /// The direction of this number; none where it is not 1 to 7.
    pub fn new(number: u8) -> Option<Dir>
        ensures { SomeIff result (IsDirection number) number }
    {
        if 1 <= number && number <= 7 {
            Some(Dir { number })
        } else {
            None
        }
    }

    /// The direction's number.
    pub fn number(&self) -> u8
        ensures number { result ≡ self.now }
        ensures is_direction { IsDirection result }
    {
        self.number
    }
}
