//! The outside of the program as traits, and the values that go through all of it.
//!
//! A [`Desk`] gives the bytes of an input and takes texts at six ports. A [`Gate`] is passed by the
//! workers, and a [`Ledger`] counts what they do. [`Words`] are those of a command line, and a
//! [`Volume`] is an image with what was kept of it: its [`Samples`] take 32 bits each.
#![tactic(auto)]

mod desk;
mod gate;
mod ledger;
mod memory;
mod samples;
mod volume;
mod words;

pub use definitions::{Dims, Place, Sign, Vertex};
pub use desk::{Desk, Failed};
pub use formats::{
    Axis, Frame, Head, HeadFault, Key, Kind, Limits, MeshFault, Port, Status, Verdict,
};
pub use gate::{Gate, OpenGate};
pub use ledger::{Ledger, Tally};
pub use memory::NoMemory;
pub use samples::Samples;
pub use volume::Volume;
pub use words::Words;
