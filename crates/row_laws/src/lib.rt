//! The rows of the stencil table, cut by the order of keys, are the pieces of a lattice tetrahedron.
//!
//! `rows_give_pieces` in proofs/ joins what `corner_table::row_of` and the splits of `quad_split` promise to the
//! pieces of the definitions.
#![tactic(auto)]
