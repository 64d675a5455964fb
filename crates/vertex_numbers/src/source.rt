ghost use Rattle.std.specs.Prelude.{◌≡◌, ℕ, ⊤, refl};
ghost use Rattle.std.proofs.Common.{ap, ◌∙◌};
ghost use Rattle.definitions.specs.declared.Dims.{Dims};
ghost use Rattle.definitions.specs.declared.Vertex.{Vertex};
ghost use Rattle.definitions.specs.declared.State.{State};
ghost use Rattle.definitions.specs.Lattice.{InDomain, id, id as id_of};
ghost use Rattle.definitions.specs.Mesh.{state_at};
ghost use Rattle.definitions.specs.States.{IsState, sign_of_state};

use definitions::{Sign, State};
use snap_rule::States;
use st_base::{Dims, Vertex};

/// States of the vertices of some layers.
///
/// `sizes` are those of the image, `knows` tells of which layers it has the states, and `told` which
/// they are. A call leaves a source `unchanged`: what it knew it still knows, and tells the same of.
pub trait StateSource {
    ghost sizes: { Self → Dims };

    ghost knows: { Self → ℕ → Type 0 };

    ghost told: { Self → Vertex → State };

    ghost unchanged: { Self → Self → Type 0 };

    /// The state of a vertex in a layer that the source knows.
    fn state(&mut self, v: Vertex) -> State
        requires domain { InDomain (sizes self.old) v }
        requires known { knows self.old v.h }
        ensures value { result ≡ told self.old v }
        ensures is_state { IsState result }
        ensures same { unchanged self.old self.new };

    /// The sign of a vertex by its id, in a layer that the source knows.
    fn sign_by_id(&mut self, _v: Vertex, id: u32) -> Sign
        requires domain { InDomain (sizes self.old) _v }
        requires known { knows self.old _v.h }
        requires id { id ≡ id_of (sizes self.old) _v }
        ensures sign { result ≡ sign_of_state (told self.old _v) }
        ensures same { unchanged self.old self.new };

    ghost stays: { (s : Self) → unchanged s s };

    ghost follows: { (s t u : Self) → unchanged s t → unchanged t u → unchanged s u };

    ghost same_sizes: { (s t : Self) → unchanged s t → sizes t ≡ sizes s };

    ghost same_told: { (s t : Self) → unchanged s t → told t ≡ told s };

    ghost still_knows: { (s t : Self) → unchanged s t → (h : ℕ) → knows s h → knows t h };
}

impl StateSource for States {
    ghost sizes = { λ s. s.dims };

    ghost knows = { λ s h. ⊤ };

    ghost told = { λ s v. state_at s.states (id s.dims v) };

    ghost unchanged = { λ s t. t ≡ s };

    ghost stays = { λ s. refl };

    ghost follows = { λ s t u p q. q ∙ p };

    ghost same_sizes = { λ s t p. ap (λ x. x.dims) p };

    ghost same_told = { λ s t p. λ i. λ v. state_at (p i).states (id (p i).dims v) };

    ghost still_knows = { λ s t p h k. tt };

    fn state(&mut self, v: Vertex) -> State {
        let states: &States = self;
        states.state(v)
    }

    #[inline(always)]
    fn sign_by_id(&mut self, _v: Vertex, id: u32) -> Sign {
        let states: &States = self;
        states.sign(id)
    }
}

impl StateSource for &States {
    ghost sizes = { λ s. s.now.dims };

    ghost knows = { λ s h. ⊤ };

    ghost told = { λ s v. state_at s.now.states (id s.now.dims v) };

    ghost unchanged = { λ s t. t ≡ s };

    ghost stays = { λ s. refl };

    ghost follows = { λ s t u p q. q ∙ p };

    ghost same_sizes = { λ s t p. λ i. (p i).now.dims };

    ghost same_told = { λ s t p. λ i. λ v. state_at (p i).now.states (id (p i).now.dims v) };

    ghost still_knows = { λ s t p h k. tt };

    fn state(&mut self, v: Vertex) -> State {
        let states: &States = self;
        states.state(v)
    }

    #[inline(always)]
    fn sign_by_id(&mut self, _v: Vertex, id: u32) -> Sign {
        let states: &States = self;
        states.sign(id)
    }
}
