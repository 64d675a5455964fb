//! Values of the definitions, of heads and samples, of texts and of phantoms that were worked out by hand
//! or by independent programs. Each is checked by computing, in proofs/; there is no code.
#![tactic(auto)]
