ghost use Rattle.std.specs.Prelude.{◌≡◌, ◌<◌, ◌≤◌, ◌+ℤ◌, ◌==◌, if◌then◌else◌, ℕ, pos, unsigned_abs, slice_index_or};
ghost use Rattle.definitions.specs.Vectors.{dot, place_at};
ghost use Rattle.bcc_lattice.specs.Bounds.{IsSmallPlace};
ghost use Rattle.exact.specs.Dominance.{IsDominant, entry};
ghost use Rattle.lattice_laws.specs.Kinds.{Kind, Slot, number_of_slot};
ghost use Rattle.lattice_laws.specs.NumberedTetrahedra.{IsNumberedTet};
ghost use Rattle.lattice_laws.specs.Vectors.{◌*ᵥ◌};
ghost use Rattle.moved_lattice.specs.WeightedSums.{sum4, combination};
ghost use Rattle.displacement_laws.specs.DisplacedRows.{displaced_row};
ghost use Rattle.displacement_laws.specs.Displacements.{IsNear, displacement};
ghost use Rattle.moved_matrix.specs.Matrix.{AreForms, row_of};
ghost use Rattle.moved_matrix.specs.Moved.{by_slot, is_near_at, moved_at_slot, place_at_slot};

use crate::forms::{forms_of, kind_of};
use bcc_lattice::{Tet, place};
use definitions::{Place, State, Vertex};
use determinants::dot;

/// The matrix of a lattice tetrahedron whose vertices are in these states, in 8192 parts: in each row, what each vertex
/// of the lattice weighs in the place of one that is moved.
pub fn moved_matrix(tet: &Tet, states: [State; 4]) -> [[i32; 4]; 4]
    requires tet { IsNumberedTet tet.now.at tet.now.ids }
    requires near { (s : ℕ) → s < 4 → is_near_at states s }
    ensures sums { (s : Slot) → sum4 (row_of result s) ≡ pos 8192 }
    ensures places { (s : Slot) → pos 8192 *ᵥ moved_at_slot tet.now.at states s ≡ combination (row_of result s) (place_at_slot tet.now.at) }
    ensures dominant { IsDominant (entry result) }
    ensures small { (i j : ℕ) → i < 4 → j < 4 → unsigned_abs (entry result i j) ≤ 16384 }
{
    let forms = forms_of(kind_of(tet));
    let [a, b, c, d] = tet.at;
    [
        row(forms, 0, displacement(a, states[0])),
        row(forms, 1, displacement(b, states[1])),
        row(forms, 2, displacement(c, states[2])),
        row(forms, 3, displacement(d, states[3])),
    ]
}

// How far a state is from its vertex.
fn displacement(v: Vertex, state: State) -> Place
    requires { IsNear state }
    ensures value { result ≡ displacement v state }
    ensures small { IsSmallPlace 2047 result }
{
    let at = place(v, state);
    let from = place(v, State::Minus);
    Place {
        x: at.x - from.x,
        y: at.y - from.y,
        z: at.z - from.z,
    }
}

// The row of the vertex in a slot, by its displacement.
fn row(forms: [Place; 4], slot: usize, shift: Place) -> [i32; 4]
    requires forms { (j : ℕ) → j < 4 → IsSmallPlace 1 (place_at forms j) }
    requires shift { IsSmallPlace 2047 shift }
    ensures value { (κ : Kind) (s : Slot) → AreForms forms κ → number_of_slot s ≡ slot → (j : Slot) → by_slot result j ≡ displaced_row κ s shift j }
    ensures small { (j : ℕ) → j < 4 → unsigned_abs (slice_index_or result j (pos 0)) ≤ 16384 }
{
    let [first, second, third, fourth] = forms;
    [
        weight(own(slot, 0), first, shift),
        weight(own(slot, 1), second, shift),
        weight(own(slot, 2), third, shift),
        weight(own(slot, 3), fourth, shift),
    ]
}

// What a vertex weighs in its own place.
fn own(slot: usize, other: usize) -> i64
    ensures { result ≡ (if slot == other then pos 8192 else pos 0) }
{
    if slot == other { 8192 } else { 0 }
}

// The weight of a vertex, by its form.
fn weight(base: i64, form: Place, shift: Place) -> i32
    requires base { unsigned_abs base ≤ 8192 }
    requires form { IsSmallPlace 1 form }
    requires shift { IsSmallPlace 2047 shift }
    ensures value { result ≡ base +ℤ dot form shift }
    ensures small { unsigned_abs result ≤ 16384 }
{
    (base + dot(form, shift)) as i32
}
