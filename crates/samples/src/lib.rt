//! What the samples of an image say at the vertices of the body-centred cubic lattice: values and signs.
#![tactic(auto)]

mod bits;
mod blocks;
mod count;
mod field;
mod level;
mod runs;
mod sign;
mod sign_words;
mod star;

pub use count::{Signs, count_signs};
pub use field::Field;
pub use level::Level;
pub use sign::sign_of;
pub use sign_words::SignWords;
pub use star::{Cube, Pair, Square, Star};
