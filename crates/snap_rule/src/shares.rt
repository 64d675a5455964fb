ghost use Rattle.std.specs.Prelude.{◌≡◌, ◌≤◌, ◌↔◌, IfSome, IsSome, if◌then◌else◌};
ghost use Rattle.definitions.specs.States.{Shares as SharesOfEdges, IsShares};

use std::marker::Model;

/// The shares of the two kinds of edges within which a cut is near, in 4096ths: at most 1023 on a long
/// edge and 2047 on a short one.
#[derive(Clone, Copy)]
pub struct Shares {
    long: u16,
    short: u16,
}

impl Model for Shares {
    ghost use Rattle.definitions.specs.States.{Shares as SharesOfEdges, IsShares};

    ghost Value = { SharesOfEdges };

    ghost view = { λ s. record { long = s.long; short = s.short } };

    ghost invariant = { λ s. IsShares (record { long = s.long; short = s.short }) };

    ghost inverse = { λ s. record { long = s.long; short = s.short } };
}

impl Shares {
    /// The shares of long and of short edges; none beyond the limits.
    pub fn new(long: u16, short: u16) -> Option<Shares>
        ensures shares { IfSome result (λ s. s ≡ record { long = long; short = short }) }
        ensures limits { IsSome result ↔ IsShares (record { long = long; short = short }) }
    {
        if long <= 1023 && short <= 2047 {
            Some(Shares { long, short })
        } else {
            None
        }
    }

    /// The share of a kind of edges.
    pub fn share(&self, is_long: bool) -> u16
        ensures share { result ≡ (if is_long then self.now.long else self.now.short) }
        ensures small { result ≤ 2047 }
    {
        if is_long { self.long } else { self.short }
    }
}
