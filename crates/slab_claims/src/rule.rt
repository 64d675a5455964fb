//! What holds of the counter and of all seats between any two steps, and what the steps do.
use atomic_table::{Join, Play, Split, TableRule};
use std::collections::LinkedList;

/// What a seat knows: the table that it is of, its share, the numbers that it drew, and whether it found that
/// there are no more. No value of it is made.
pub struct View {
    pub slabs: u32,
    pub seats: u32,
    pub share: u32,
    pub drawn: LinkedList<u32>,
    pub done: bool,
}

/// The rule, over the number of slabs and of seats.
pub struct DrawsOnce;

impl TableRule<u8, View, (u32, u32)> for DrawsOnce {
    ghost use Rattle.slab_claims.specs.Rule.{KeepsRule, first_view};

    ghost holds = { λ key. KeepsRule key.0 key.1 };

    ghost first = { λ key. first_view key.0 key.1 };
}

/// A number is drawn.
pub(crate) struct Draw;

impl Play<u8, View> for Draw {
    ghost use Rattle.slab_claims.specs.Rule.{Draws};

    ghost then = { Draws };
}

/// A seat gives one share to a new seat, or takes in another's.
pub(crate) struct Sharing;

impl Split<View> for Sharing {
    ghost use Rattle.slab_claims.specs.Rule.{one_less, one_share};

    ghost left = { one_less };

    ghost right = { one_share };
}

impl Join<View> for Sharing {
    ghost use Rattle.slab_claims.specs.Rule.{joint, spent};

    ghost both = { joint };

    ghost spent = { spent };
}
