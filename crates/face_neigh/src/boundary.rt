ghost use Rattle.std.specs.Prelude.{◌≡◌, ◌≤◌, ◌++◌, ℕ, Bool, All, IfOk, IsTrue, OnOk, length};
ghost use Rattle.std.specs.List.{list_all};
ghost use Rattle.definitions.specs.Soundness.{HasClosedBoundary, boundary, edge_count};
ghost use Rattle.adjacency.specs.Neighbours.{neighbours as neighbours_lem};
ghost use Rattle.adjacency.specs.Laws.{NodesDiffer, ShareByTwo, StandOnce};
ghost use Rattle.face_neigh.specs.Open.{one_if, open_triangles};

use crate::across::neighbours;
use st_base::NoMemory;
use std::alloc::Global;

// Appends the triangle, if it is asked for.
fn push_if(faces: &mut Vec<[u32; 3]>, asked: bool, triangle: [u32; 3]) -> Result<(), NoMemory>
    ensures { OnOk result (faces.new.items ≡ faces.old.items ++ one_if asked triangle) }
{
    if asked && faces.push(triangle).is_err() {
        return Err(NoMemory);
    }
    Ok(())
}

// Appends those triangles of a tetrahedron across which there is no neighbour.
fn push_open(
    faces: &mut Vec<[u32; 3]>,
    tet: [u32; 4],
    across: [Option<u32>; 4],
) -> Result<(), NoMemory>
    ensures { OnOk result (faces.new.items ≡ faces.old.items ++ open_triangles tet across) }
{
    let [a, b, c, d] = tet;
    push_if(faces, across[3].is_none(), [a, c, b])?;
    push_if(faces, across[2].is_none(), [a, b, d])?;
    push_if(faces, across[1].is_none(), [a, d, c])?;
    push_if(faces, across[0].is_none(), [b, c, d])
}

/// The boundary triangles of tetrahedra whose neighbours are known, as `faces` has them.
pub fn faces_by_neighbours(
    alloc: Global,
    tets: &[[u32; 4]],
    across: &[[Option<u32>; 4]],
) -> Result<Vec<[u32; 3]>, NoMemory>
    requires differ { NodesDiffer tets.now }
    requires by_two { ShareByTwo tets.now }
    requires across { across.now ≡ neighbours_lem tets.now }
    ensures { IfOk result (λ found. found.items ≡ boundary tets.now) }
{
    let mut faces = Vec::new(alloc);
    for (number, tet) in tets.iter().enumerate() {
        push_open(&mut faces, *tet, across[number])?;
    }
    Ok(faces)
}

/// The boundary triangles, those that are in one tetrahedron alone: in the order of tetrahedra, each
/// directed as its tetrahedron has it.
pub fn faces(alloc: Global, tets: &[[u32; 4]]) -> Result<Vec<[u32; 3]>, NoMemory>
    requires differ { NodesDiffer tets.now }
    requires by_two { ShareByTwo tets.now }
    requires few { length tets.now ≤ 33554432 }
    ensures faces { IfOk result (λ found. found.items ≡ boundary tets.now) }
    ensures once { IfOk result (λ found. StandOnce found.items) }

    // Where the boundary is level and closes up, so do they.
    ensures closed { (is_level : ℕ → Bool) → HasClosedBoundary tets.now is_level → IfOk result (λ found. (a b : ℕ) → edge_count found.items a b ≡ edge_count found.items b a) }
    ensures level { (is_level : ℕ → Bool) → HasClosedBoundary tets.now is_level → IfOk result (λ found. All (λ face. IsTrue (list_all is_level face)) found.items) }
{
    let across = neighbours(alloc, tets)?;
    faces_by_neighbours(alloc, tets, &across)
}
