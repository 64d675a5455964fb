//! Words on lists of numbers that shared tables and the concurrent core speak in, and lemmas on lists, sums, ranges and decimal digits. They stand in specs/ and proofs/; there is no code.
#![tactic(auto)]
