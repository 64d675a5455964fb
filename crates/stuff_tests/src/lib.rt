//! Tests of the top call, over desks in memory. A row of a table has the words, the input and what is wanted.
#![tactic(auto)]

#[cfg(test)]
mod faults;
#[cfg(test)]
mod files;
#[cfg(test)]
mod finished;
#[cfg(test)]
mod lines;
#[cfg(test)]
mod meshes;
#[cfg(test)]
mod order;
#[cfg(test)]
mod ports;
#[cfg(test)]
mod rows;
#[cfg(test)]
mod workers;
