ghost use Rattle.std.specs.Prelude.{◌≡◌, ◌<◌, ◌^◌, unsigned_abs};
ghost use Rattle.std.specs.Option.{SomeIff};

use std::marker::Model;

/// The level that divides inside from outside, a multiple of one half that is below 2^32 in size.
#[derive(Clone, Copy)]
pub struct Level {
    twice: i64,
}

impl Model for Level {
    ghost use Rattle.std.specs.Prelude.{◌<◌, ◌^◌, ℤ, unsigned_abs};

    ghost Value = { ℤ };

    ghost view = { λ level. level.twice };

    ghost invariant = { λ level. unsigned_abs level.twice < 2 ^ 33 };

    ghost inverse = { λ z. record { twice = z } };
}

impl Level {
    /// The level of which this is the double; none where that is at least 2^33 in size.
    pub fn new(twice: i64) -> Option<Level>
        ensures { SomeIff result (unsigned_abs twice < 2 ^ 33) twice }
    {
        if twice.unsigned_abs() < 1 << 33 {
            Some(Level { twice })
        } else {
            None
        }
    }

    /// The double of the level.
    pub fn twice(&self) -> i64
        ensures value { result ≡ self.now }
        ensures small { unsigned_abs result < 2 ^ 33 }
    {
        self.twice
    }
}
