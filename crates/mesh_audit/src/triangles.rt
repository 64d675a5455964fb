ghost use Rattle.std.specs.Prelude.{◌≡◌, ◌*◌, ◌^◌, ◌<◌, ◌++◌, map, OnOk, IfOk, length, IsPermutation};
ghost use Rattle.std.specs.List.Sorted.{IsNonDecreasingBy};
ghost use Rattle.definitions.specs.Soundness.{triangles_of};
ghost use Rattle.mesh_audit.specs.Triangles.{key_of, triangles_from, triangle_of};
ghost use Rattle.mesh_files.specs.Verdicts.{same_direction as is_same_direction};

use st_base::NoMemory;
use std::alloc::Global;

/// A directed triangle, and the number of its tetrahedron.
#[derive(Clone, Copy, Debug, PartialEq, Eq)]
pub struct Triangle {
    pub nodes: [u32; 3],
    pub tet: u32,
}

/// A number that tells three nodes whatever their order.
#[tactic(auto, unfolding(crate::specs::Triangles::key_of))]
pub fn key(nodes: [u32; 3]) -> u128
    ensures { result ≡ key_of nodes }
{
    let [a, b, c] = nodes;
    let least = a.min(b).min(c);
    let greatest = a.max(b).max(c);
    let sum = u64::from(a) + u64::from(b) + u64::from(c);
    let middle = sum - (u64::from(least) + u64::from(greatest));
    (u128::from(least) * 4_294_967_296 + u128::from(middle)) * 4_294_967_296 + u128::from(greatest)
}

/// Puts triangles in the order of their nodes, so that those with the same nodes stand together.
pub fn sort(triangles: &mut [Triangle])
    ensures permutation { IsPermutation triangles.old triangles.new }
    ensures sorted { IsNonDecreasingBy (λ t. key_of t.nodes) triangles.new }
{
    triangles.sort_unstable_by_key(|t| key(t.nodes));
}

/// Whether two triangles have the same nodes in the same direction.
pub fn same_direction(s: [u32; 3], t: [u32; 3]) -> bool
    ensures { result ≡ is_same_direction s t }
{
    let [a, b, c] = s;
    let [x, y, z] = t;
    (a == x && b == y && c == z) || (a == y && b == z && c == x) || (a == z && b == x && c == y)
}

fn push_four(triangles: &mut Vec<Triangle>, tet: u32, nodes: [u32; 4]) -> Result<(), NoMemory>
    ensures { OnOk result (triangles.new.items ≡ triangles.old.items ++ map (triangle_of tet) (triangles_of nodes)) }
{
    let [a, b, c, d] = nodes;
    let four = [
        Triangle {
            nodes: [a, c, b],
            tet,
        },
        Triangle {
            nodes: [a, b, d],
            tet,
        },
        Triangle {
            nodes: [a, d, c],
            tet,
        },
        Triangle {
            nodes: [b, c, d],
            tet,
        },
    ];
    match triangles.extend_from_slice(&four) {
        Ok(()) => Ok(()),
        Err(_) => Err(NoMemory),
    }
}

/// The triangles of all tetrahedra, in their order.
pub fn triangles(alloc: Global, tets: &[[u32; 4]]) -> Result<Vec<Triangle>, NoMemory>
    requires { length tets.now < 2 ^ 30 }
    ensures { IfOk result (λ v. v.items ≡ triangles_from 0 tets.now) }
{
    let Ok(mut triangles) = Vec::with_capacity(alloc, 4 * tets.len()) else {
        return Err(NoMemory);
    };
    for (i, tet) in tets.iter().enumerate() {
        push_four(&mut triangles, i as u32, *tet)?;
    }
    Ok(triangles)
}
