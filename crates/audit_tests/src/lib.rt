//! Tests of finished mesh files: what is read, and how it is judged.
#![tactic(auto)]

#[cfg(test)]
mod faults;
#[cfg(test)]
mod files;
#[cfg(test)]
mod rows;
