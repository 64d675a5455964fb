//! Tests of the concurrent core by scripts of events, and of claims, with threads.
#![tactic(auto)]

#[cfg(test)]
mod claims;
#[cfg(test)]
mod scripts;
#[cfg(test)]
mod worked;
