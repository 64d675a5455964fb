//! Laws of codes and of lattice tetrahedra. Each is the contract of a function that does nothing.
ghost use Rattle.bcc_lattice.specs.Laws.{CodesTellStates, FoundTetsAreListed};

/// Two states that have one code are equal.
pub fn codes_tell_states()
    ensures { CodesTellStates }
{}

/// The tetrahedra at the vertices, one vertex after another in order, are all lattice tetrahedra, in the order of their
/// vertices, and each once.
pub fn found_tets_are_listed()
    ensures { FoundTetsAreListed }
{}
