ghost use Rattle.std.specs.Prelude.{◌≡◌, ◌<◌, ◌≤◌, ◌+◌, ◌*◌, ◌^◌, length, All, IfOk, IfSome, None, IsPermutation};
ghost use Rattle.std.specs.List.Sorted.{IsNonDecreasingBy};
ghost use Rattle.std.specs.List.{position};
ghost use Rattle.definitions.specs.Soundness.{all_triangles, boundary};
ghost use Rattle.mesh_files.specs.Files.{AreNodes, AreTets, AreOf};
ghost use Rattle.mesh_audit.specs.FitTogether.{FitTogether, IsSoundVerdict};
ghost use Rattle.mesh_audit.specs.Triangles.{IsPlain, key_of, triangles_from};
ghost use Rattle.mesh_files.specs.Verdicts.{verdict, found_or, is_crowded, is_turned};

use crate::runs::{Findings, find};
use crate::triangles::{Triangle, sort, triangles};
use crate::volumes::first_not_positive;
use mesh_read::{Nodes, Tets};
use st_base::{NoMemory, Place, Verdict};
use std::alloc::Global;

// The triangles of all tetrahedra in the order of their nodes.
fn sorted_triangles(alloc: Global, tets: &[[u32; 4]]) -> Result<Vec<Triangle>, NoMemory>
    requires { length tets.now < 2 ^ 30 }
    ensures moved { IfOk result (λ v. IsPermutation (triangles_from 0 tets.now) v.items) }
    ensures sorted { IfOk result (λ v. IsNonDecreasingBy (λ t. key_of t.nodes) v.items) }
{
    let mut all = triangles(alloc, tets)?;
    sort(&mut all);
    Ok(all)
}

// How tetrahedra fit together whose triangles have three different nodes each.
fn fit(alloc: Global, tets: &[[u32; 4]]) -> Result<Findings, NoMemory>
    requires few { length tets.now < 2 ^ 30 }
    requires plain { All IsPlain (all_triangles tets.now) }
    ensures crowded { IfOk result (λ f. f.crowded ≡ position (is_crowded tets.now) tets.now) }
    ensures crowded_within { IfOk result (λ f. IfSome f.crowded (λ i. i < length tets.now)) }
    ensures turned { IfOk result (λ f. f.crowded ≡ None → f.turned ≡ position (is_turned tets.now) tets.now) }
    ensures turned_within { IfOk result (λ f. f.crowded ≡ None → IfSome f.turned (λ i. i < length tets.now)) }
    ensures boundary { IfOk result (λ f. f.boundary ≡ length (boundary tets.now)) }
    ensures few { IfOk result (λ f. f.boundary ≤ 4 * length tets.now) }
{
    let sorted = sorted_triangles(alloc, tets)?;
    Ok(find(sorted.as_slice()))
}

// The verdict on positive tetrahedra.
fn verdict_on(first: u32, nodes: usize, tets: usize, found: Findings) -> Verdict
    requires first { first ≤ 1 }
    requires nodes { nodes < 2 ^ 30 }
    requires tets { tets < 2 ^ 30 }
    requires crowded { IfSome found.crowded (λ i. i < tets) }
    requires turned { found.crowded ≡ None → IfSome found.turned (λ i. i < tets) }
    requires boundary { found.boundary ≤ 4 * tets }
    ensures { result ≡ found_or found.crowded (λ i. Verdict.Crowded (first + i))
        (found_or found.turned (λ i. Verdict.Turned (first + i))
        (Verdict.Sound nodes tets found.boundary)) }
{
    if let Some(tet) = found.crowded {
        return Verdict::Crowded { tet: first + tet };
    }
    if let Some(tet) = found.turned {
        return Verdict::Turned { tet: first + tet };
    }
    Verdict::Sound {
        nodes: nodes as u32,
        tets: tets as u32,
        boundary: found.boundary as u32,
    }
}

fn judge(
    alloc: Global,
    first: u32,
    places: &[Place],
    tets: &[[u32; 4]],
) -> Result<Verdict, NoMemory>
    requires nodes { AreNodes (record { first = first; places = places.now }) }
    requires tets { AreTets tets.now }
    requires of_nodes { AreOf (length places.now) tets.now }
    ensures { IfOk result (λ v. v ≡ verdict (record { first = first; places = places.now }) tets.now) }
{
    match first_not_positive(places, tets) {
        Some(tet) => Ok(Verdict::NotPositive {
            tet: first + tet as u32,
        }),
        None => {
            let found = fit(alloc, tets)?;
            Ok(verdict_on(first, places.len(), tets.len(), found))
        }
    }
}

/// Judges tetrahedra: the first fault that they have, or that they are sound.
///
/// ```rust
/// let verdict = audit(alloc, &nodes, &tets)?;
/// assert!(rt; matches!(verdict, Verdict::Sound { .. }));
/// ```
pub fn audit(alloc: Global, nodes: &Nodes, tets: &Tets) -> Result<Verdict, NoMemory>
    requires { AreOf (length nodes.now.places) tets.now }
    ensures verdict { IfOk result (λ v. v ≡ verdict nodes.now tets.now) }
    ensures sound { IfOk result (λ v. IsSoundVerdict v → FitTogether nodes.now.places tets.now) }
{
    judge(alloc, nodes.first(), nodes.places(), tets.tets())
}
