//! The words of the command line, and what command they are.
#![tactic(auto)]

mod command;
mod ends;
mod names;
mod numbers;
mod points;
mod read;
mod settings;
mod units;
mod verbs;

pub use command::{Command, MeshSettings, ProbeSettings, Source};
pub use numbers::{halves, level, number};
pub use read::{read_words, words_read_once};
