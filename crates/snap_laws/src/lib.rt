//! Laws of snapping: the state of a vertex follows from the values around it alone, and the cuts that are
//! left after it are at no end of their edges.
//!
//! Each law is the contract of a function that does nothing. The definitions are those of the crate `definitions`.
#![tactic(auto)]

ghost use Rattle.snap_laws.specs.Laws.{CutsLeftAreInner, StatesAreStates, StatesByValues};

/// The state of a vertex follows from its value and those at the other ends of its edges.
pub fn states_by_values()
    ensures { StatesByValues }
{}

/// What the rule says of a vertex is one of the states that there are.
pub fn states_are_states()
    ensures { StatesAreStates }
{}

/// After snapping the cut on an edge from Plus to Minus has a number from 1 to 4095.
pub fn cuts_left_are_inner()
    ensures { CutsLeftAreInner }
{}
