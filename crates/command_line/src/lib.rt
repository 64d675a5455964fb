//! Which command the words of the command line are: a grammar of whole lists, in specs/. Here are the
//! plain types that it speaks of; there is no code.
#![tactic(auto)]

/// A command.
#[derive(Clone, Copy, Debug, PartialEq, Eq)]
pub enum Verb {
    Count,
    Mesh,
    Demo,
    Audit,
    Probe,
    Stream,
}

/// The name of a named word.
#[derive(Clone, Copy, Debug, PartialEq, Eq)]
pub enum Name {
    Level,
    Below,
    Step,
    Long,
    Short,
    Workers,
    Slab,
    First,
    Units,
    Faces,
    At,
    Size,
    Seed,
}

/// How the work is shared out: how many workers there are, and how many pairs of layers a slab has;
/// each 1 to 64.
#[derive(Clone, Copy, Debug, PartialEq, Eq)]
pub struct Plan {
    pub workers: u32,
    pub slab: u32,
}
