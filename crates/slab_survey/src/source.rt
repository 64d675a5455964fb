ghost use Rattle.std.specs.Prelude.{◌≡◌, ℕ, true, refl};
ghost use Rattle.std.proofs.Common.{ap, ◌∙◌};
ghost use Rattle.definitions.specs.declared.Dims.{Dims as DimsValue};
ghost use Rattle.definitions.specs.declared.Vertex.{Vertex as VertexValue};
ghost use Rattle.definitions.specs.declared.State.{State as StateValue};
ghost use Rattle.definitions.specs.Lattice.{IsDims, InDomain};
ghost use Rattle.definitions.specs.States.{IsState, state_of};
ghost use Rattle.list_words.specs.Words.{has};
ghost use Rattle.layer_cells.specs.Seats.{CellsValue, CellSeatValue};

use bcc_lattice::{id, sign_of};
use definitions::{Sign, State};
use layer_cells::{CellSeat, Cells};
use st_base::{Dims, Vertex};
use vertex_numbers::StateSource;

/// The states of the layers that a seat knows raised. The sizes stand here by themselves, so that what ids are made
/// of isn't read again after each word.
///
/// The seat is one at these cells, and the sizes are those of their field.
#[derive(Drop)]
pub struct KnownLayers<'a> {
    pub cells: &'a Cells,
    pub seat: &'a mut CellSeat,
    pub dims: Dims,
    ghost of: { seat.now.of ≡ cells.now },
    ghost sizes: { dims ≡ cells.now.subject.field.dims },
    ghost is_dims: { IsDims dims },
}

impl<'a> StateSource for KnownLayers<'a> {
    ghost sizes = { λ k. k.cells.now.subject.field.dims };

    ghost knows = { λ k h. has h k.seat.now.seen ≡ true };

    ghost told = { λ k v. state_of k.cells.now.subject.field k.cells.now.subject.shares v };

    ghost unchanged = { λ k l. (l.seat.ghost_name ≡ k.seat.ghost_name) × (l.seat.now ≡ k.seat.now) × (l.cells.now ≡ k.cells.now) };

    ghost stays = { λ k. (refl, refl, refl) };

    ghost follows = { λ k l m p q. (q.0 ∙ p.0, q.1 ∙ p.1, q.2 ∙ p.2) };

    ghost same_sizes = { λ k l p. ap (λ (c : CellsValue). c.subject.field.dims) p.2 };

    ghost same_told = { λ k l p. λ i. λ v. state_of (p.2 i).subject.field (p.2 i).subject.shares v };

    ghost still_knows = { λ k l p h known. ap (λ (s : CellSeatValue). has h s.seen) p.1 ∙ known };

    fn state(&mut self, v: Vertex) -> State {
        self.cells.read_id(self.seat, v, id(self.dims, v))
    }

    #[inline(always)]
    fn sign_by_id(&mut self, v: Vertex, id: u32) -> Sign {
        sign_of(self.cells.read_id(self.seat, v, id))
    }
}
