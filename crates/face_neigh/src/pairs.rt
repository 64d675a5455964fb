ghost use Rattle.std.specs.Prelude.{◌≡◌, ◌≢◌, ◌/◌, ◌<◌, ℕ, Some, [], All, IfOk, length, slice_index_or};
ghost use Rattle.face_neigh.specs.Pairs.{NotesPair, NotesPairs, none_noted, noted};

use crate::side::Side;
use st_base::NoMemory;
use std::alloc::Global;

// Notes, at the triangle at a place, the tetrahedron of the other place.
fn note(found: &mut [[Option<u32>; 4]], place: u32, other: u32)
    requires { place / 4 < length found.old }
    ensures here { noted found.new place ≡ Some (other / 4) }
    ensures rows { (t : ℕ) → length (slice_index_or found.new t []) ≡ length (slice_index_or found.old t []) }
    ensures elsewhere { (p : ℕ) → p ≢ place → noted found.new p ≡ noted found.old p }
{
    found[(place / 4) as usize][(3 - place % 4) as usize] = Some(other / 4);
}

// Notes each of two triangles at the other, if they have the same nodes.
fn note_pair(found: &mut [[Option<u32>; 4]], a: Side, b: Side)
    requires a { a.place / 4 < length found.old }
    requires b { b.place / 4 < length found.old }
    ensures { NotesPair found.old found.new a b }
{
    if a.key() == b.key() {
        note(found, a.place, b.place);
        note(found, b.place, a.place);
    }
}

// Notes at each triangle the other tetrahedron that it is in, where those with the same nodes stand
// together.
fn note_pairs(found: &mut [[Option<u32>; 4]], sides: &[Side])
    requires { All (λ s. s.place / 4 < length found.old) sides.now }
    ensures { NotesPairs found.old found.new sides.now (length sides.now) }
{
    for k in 1..sides.len() {
        note_pair(found, sides[k - 1], sides[k]);
    }
}

// So many tetrahedra, of which nothing is noted yet.
fn none_yet(alloc: Global, count: usize) -> Result<Vec<[Option<u32>; 4]>, NoMemory>
    ensures { IfOk result (λ found. found.items ≡ none_noted count) }
{
    let Ok(mut found) = Vec::with_capacity(alloc, count) else {
        return Err(NoMemory);
    };
    for _ in 0..count {
        if found.push([None; 4]).is_err() {
            return Err(NoMemory);
        }
    }
    Ok(found)
}

/// For each triangle of so many tetrahedra the other tetrahedron that it is in, where those with the
/// same nodes stand together.
pub fn noted_pairs(
    alloc: Global,
    count: usize,
    sides: &[Side],
) -> Result<Vec<[Option<u32>; 4]>, NoMemory>
    requires { All (λ s. s.place / 4 < count) sides.now }
    ensures length { IfOk result (λ found. length found.items ≡ count) }
    ensures pairs { IfOk result (λ found. NotesPairs (none_noted count) found.items sides.now (length sides.now)) }
{
    let mut found = none_yet(alloc, count)?;
    note_pairs(&mut found, sides);
    Ok(found)
}
