//! Tests of the writer beside the workers: the files of one sample by it, ports that fail, and that it writes while they
//! work.
#![tactic(auto)]

#[cfg(test)]
mod files;
#[cfg(test)]
mod made;
#[cfg(test)]
mod meeting;
