ghost use Rattle.std.specs.Prelude.{◌≡◌, ◌≤◌, IfOk, length};
ghost use Rattle.adjacency.specs.Neighbours.{neighbours as neighbours_lem};
ghost use Rattle.adjacency.specs.Laws.{NodesDiffer, ShareByTwo};

use crate::pairs::noted_pairs;
use crate::sides::sorted_sides;
use st_base::NoMemory;
use std::alloc::Global;

/// The neighbours of each tetrahedron: neighbour i is the number of the other tetrahedron that has the
/// triangle without node i.
///
/// ```rust
/// let across = neighbours(alloc, &[[0, 1, 2, 3], [1, 2, 3, 4]])?;
/// assert_eq!(rt; across[0], [Some(1), None, None, None]);
/// assert_eq!(rt; across[1], [None, None, None, Some(0)]);
/// ```
///
/// Four triangles of 16 bytes a tetrahedron are held twice while they are sorted, the second time in
/// groups that may have twice the room that they need: at 33,554,432 tetrahedra, the most that are
/// taken, four to six gibibytes. An answer has 32 bytes.
pub fn neighbours(alloc: Global, tets: &[[u32; 4]]) -> Result<Vec<[Option<u32>; 4]>, NoMemory>
    requires differ { NodesDiffer tets.now }
    requires by_two { ShareByTwo tets.now }
    requires few { length tets.now ≤ 33554432 }
    ensures neighbours { IfOk result (λ found. found.items ≡ neighbours_lem tets.now) }
    ensures length { IfOk result (λ found. length found.items ≡ length tets.now) }
{
    let sides = sorted_sides(alloc, tets)?;
    noted_pairs(alloc, tets.len(), &sides)
}
