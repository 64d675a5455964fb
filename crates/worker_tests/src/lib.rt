//! Tests of cells, of workers and of surveys, over small fields.
#![tactic(auto)]

#[cfg(test)]
mod tests;
