//! Which tetrahedra share triangles, and the texts of boundary triangles and of neighbours, in specs/;
//! there is no code.
#![tactic(auto)]
