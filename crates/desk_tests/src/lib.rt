//! Tests of the desks, and of what the program does with its words. A row of a table has what is asked and what is wanted.
#![tactic(auto)]

#[cfg(test)]
mod carrying;
#[cfg(test)]
mod failing;
#[cfg(test)]
mod files;
#[cfg(test)]
mod memory;
#[cfg(test)]
mod rows;
