ghost use Rattle.std.specs.Prelude.{◌≡◌, ◌+◌, ◌<◌, ◌≤◌, ◌^◌, ◌++◌, [], ◌∷◌, All, length, IfOk, OnOk, IsPermutation};
ghost use Rattle.std.specs.List.Sorted.{IsNonDecreasingBy};
ghost use Rattle.definitions.specs.Soundness.{triangles_of};
ghost use Rattle.face_neigh.specs.Sides.{IsSmall, key_of, sides, sides_from};

use crate::gather::gather;
use crate::side::Side;
use st_base::NoMemory;
use std::alloc::Global;

// Appends a triangle.
fn push(sides: &mut Vec<Side>, side: Side) -> Result<(), NoMemory>
    ensures more { OnOk result (sides.new.items ≡ sides.old.items ++ side ∷ []) }
    ensures small { All IsSmall sides.old.items → IsSmall side → OnOk result (All IsSmall sides.new.items) }
{
    match sides.push(side) {
        Ok(()) => Ok(()),
        Err(_) => Err(NoMemory),
    }
}

// Appends the four triangles of a tetrahedron, the first of them at a place.
fn push_four(sides: &mut Vec<Side>, tet: [u32; 4], place: u32) -> Result<(), NoMemory>
    requires { place + 4 < 2 ^ 32 }
    ensures sides { OnOk result (sides.new.items ≡ sides.old.items ++ sides_from place (triangles_of tet)) }
    ensures small { All IsSmall sides.old.items → OnOk result (All IsSmall sides.new.items) }
{
    let [a, b, c, d] = tet;
    push(sides, Side::new(place, [a, c, b]))?;
    push(sides, Side::new(place + 1, [a, b, d]))?;
    push(sides, Side::new(place + 2, [a, d, c]))?;
    push(sides, Side::new(place + 3, [b, c, d]))
}

// The triangles of all tetrahedra, in their order.
fn in_order(alloc: Global, tets: &[[u32; 4]]) -> Result<Vec<Side>, NoMemory>
    requires { length tets.now ≤ 33554432 }
    ensures sides { IfOk result (λ found. found.items ≡ sides tets.now) }
    ensures small { IfOk result (λ found. All IsSmall found.items) }
{
    let Ok(mut sides) = Vec::with_capacity(alloc, 4 * tets.len()) else {
        return Err(NoMemory);
    };
    for (number, tet) in tets.iter().enumerate() {
        push_four(&mut sides, *tet, 4 * number as u32)?;
    }
    Ok(sides)
}

/// The triangles of all tetrahedra, those with the same nodes together.
pub fn sorted_sides(alloc: Global, tets: &[[u32; 4]]) -> Result<Vec<Side>, NoMemory>
    requires { length tets.now ≤ 33554432 }
    ensures permutation { IfOk result (λ sorted. IsPermutation (sides tets.now) sorted.items) }
    ensures small { IfOk result (λ sorted. All IsSmall sorted.items) }
    ensures sorted { IfOk result (λ sorted. IsNonDecreasingBy key_of sorted.items) }
{
    let mut sides = in_order(alloc, tets)?;
    gather(alloc, &mut sides)?;
    sides.sort_unstable_by_key(|side| side.key());
    Ok(sides)
}
