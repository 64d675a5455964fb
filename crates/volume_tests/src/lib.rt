//! Tests of heads, of volumes that are made, written and read, and of the words of a command. A row of a table has what is given,
//! a bar, and what is wanted.
#![tactic(auto)]

#[cfg(test)]
mod files;
#[cfg(test)]
mod heads;
#[cfg(test)]
mod phantoms;
#[cfg(test)]
mod rows;
#[cfg(test)]
mod words;
