//! What holds of the words and of all seats between any two steps, and what the steps do.
use atomic_table::{Join, Play, Split, TableRule};
use samples::Field;
use snap_rule::Shares;
use std::collections::LinkedList;
use std::snapshot::Snapshot;

/// What a seat knows: whose states it makes, the layers that it knows raised, those whose flag its last look
/// found down, the ids that it put, and the layers that it made. No value of it is made.
pub struct View {
    pub live: bool,
    pub field: Field,
    pub shares: Shares,
    pub seen: LinkedList<u32>,
    pub down: LinkedList<u32>,
    pub put: LinkedList<u32>,
    pub made: LinkedList<u32>,
}

/// The field and the shares whose states the words are.
pub type Key = (Snapshot<Field>, Shares);

/// The rule, over the field and the shares.
pub struct SetOnce;

impl TableRule<u8, View, Key> for SetOnce {
    ghost use Rattle.layer_cells.specs.Rule.{KeepsRule, first_view};

    ghost holds = { λ key. KeepsRule (record { field = key.0.value; shares = key.1 }) };

    ghost first = { λ key. first_view (record { field = key.0.value; shares = key.1 }) };
}

/// A flag is looked at.
pub(crate) struct Look;

impl Play<u8, View> for Look {
    ghost use Rattle.layer_cells.specs.Rule.{Looks};

    ghost then = { Looks };
}

/// A state is put.
pub(crate) struct Put;

impl Play<u8, View> for Put {
    ghost use Rattle.layer_cells.specs.Rule.{Puts};

    ghost then = { Puts };
}

/// A flag is raised.
pub(crate) struct Raise;

impl Play<u8, View> for Raise {
    ghost use Rattle.layer_cells.specs.Rule.{Raises};

    ghost then = { Raises };
}

/// A state is read.
pub(crate) struct Read;

impl Play<u8, View> for Read {
    ghost use Rattle.layer_cells.specs.Rule.{Reads};

    ghost then = { Reads };
}

/// A seat tells a new seat what it knows, or takes in another's.
pub(crate) struct Telling;

impl Split<View> for Telling {
    ghost use Rattle.layer_cells.specs.Rule.{knows_alike};

    ghost left = { λ v. v };

    ghost right = { knows_alike };
}

impl Join<View> for Telling {
    ghost use Rattle.layer_cells.specs.Rule.{joint, spent};

    ghost both = { joint };

    ghost spent = { spent };
}
