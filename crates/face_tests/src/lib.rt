//! Tests of boundary triangles and neighbours of small meshes, and of their lines.
#![tactic(auto)]

#[cfg(test)]
mod expected;
#[cfg(test)]
mod files;
#[cfg(test)]
mod lines;
#[cfg(test)]
mod meshes;
