//! Tests of angles, of small meshes and their triangles, and of the calls that show why a mesh is sound.
#![tactic(auto)]

#[cfg(test)]
mod angles;
#[cfg(test)]
mod first;
#[cfg(test)]
mod matrices;
#[cfg(test)]
mod meshes;
#[cfg(test)]
mod triangles;
