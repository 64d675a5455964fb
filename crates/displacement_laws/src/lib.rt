//! Laws of snapped vertices: their states are within the limits of snapping, and so they stand near where they were.
#![tactic(auto)]

ghost use Rattle.displacement_laws.specs.Laws.{DisplacementsAreSmall, NearStatesAreDisplaced, StatesAreNear};

/// The states of all vertices are within the limits: 1023 parts of a long edge, 2047 of a short one.
pub fn states_are_near()
    ensures { StatesAreNear }
{}

/// A state within the limits stands some parts in one of fourteen directions from its vertex.
pub fn near_states_are_displaced()
    ensures { NearStatesAreDisplaced }
{}

/// A displacement is at most 2047 parts on each axis, where a half unit is 4096.
pub fn displacements_are_small()
    ensures { DisplacementsAreSmall }
{}
