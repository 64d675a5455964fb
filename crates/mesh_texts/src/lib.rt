//! The texts of a mesh that are written: coordinates, nodes, tetrahedra and their counts, in specs/;
//! there is no code.
#![tactic(auto)]
