ghost use Rattle.std.specs.Prelude.{◌≡◌, ℕ, ◌+◌, ◌<◌, ◌≤◌, ◌^◌, ◌++◌, [], List, true, false, length, IfOk};
ghost use Rattle.definitions.specs.Lattice.{layers};
ghost use Rattle.definitions.specs.Layout.{reach, slabs};
ghost use Rattle.bcc_lattice.specs.Layouts.{IsLayout};
ghost use Rattle.list_words.specs.Words.{has};
ghost use Rattle.slab_claims.specs.Answers.{AnswersClaim};
ghost use Rattle.slab_survey.specs.Layers.{counts_of_layers, slab_layers, unknown, vertices_in, MadeOnce, Surveys};

use crate::pass::{append_counts, know_layers};
use bcc_lattice::Layout;
use layer_cells::{CellSeat, Cells};
use samples::Field;
use slab_claims::{Claim, ClaimSeat, Claims};
use snap_rule::Shares;
use st_base::{Ledger, NoMemory};
use std::alloc::Global;
use std::marker::Model;
use vertex_numbers::LayerCount;

/// A worker: its number, its seats at the claims and at the cells, its ledger, the number of layers that it made, the
/// counts of the layers of the slabs that it surveyed, and room for the codes of a row.
///
/// Its seat made so many layers, each once, and a row has no more vertices than there is room for.
#[derive(Drop)]
pub struct Worker<L: Ledger> {
    number: u32,
    claims: ClaimSeat,
    cells: CellSeat,
    ledger: L,
    made: u32,
    counts: Vec<LayerCount>,
    codes: Vec<u64>,
}

impl<L: Ledger> Model for Worker<L> {
    ghost use Rattle.std.specs.Prelude.{◌≡◌, ◌+◌, ◌≤◌, length, vec_capacity};
    ghost use Rattle.definitions.specs.Lattice.{layers};
    ghost use Rattle.slab_survey.specs.Workers.{WorkerValue};
    ghost use Rattle.slab_survey.specs.Layers.{MadeOnce};

    ghost Value = { WorkerValue L };

    ghost view = { λ w. record { number = w.number; claims = w.claims; cells = w.cells; ledger = w.ledger; counts = w.counts.items; room = vec_capacity w.counts } };

    ghost invariant = { λ w. (w.made ≡ length w.cells.made) × MadeOnce (layers w.cells.of.subject.field.dims) w.cells × (w.cells.of.subject.field.dims.nx + 2 ≤ length w.codes.items) };
}

/// What a worker leaves.
pub struct Parts<L: Ledger> {
    pub claims: ClaimSeat,
    pub cells: CellSeat,
    pub ledger: L,
    pub made: u32,
    pub counts: Vec<LayerCount>,
}

impl<L: Ledger> Worker<L> {
    /// A worker that has done nothing yet, with room for the counts of so many layers.
    pub fn new(
        alloc: Global,
        number: u32,
        claims: ClaimSeat,
        cells: CellSeat,
        ledger: L,
        room: u32,
    ) -> Result<Worker<L>, NoMemory>
    where
        L: Drop,
        requires none { cells.made ≡ [] }
        ensures parts { IfOk result (λ w. (w.number ≡ number) × (w.claims ≡ claims) × (w.cells ≡ cells) × (w.ledger ≡ ledger) × (w.counts ≡ [])) }
        ensures room { IfOk result (λ w. room ≤ w.room) }
    {
        let Ok(counts) = Vec::with_capacity(alloc, room as usize) else {
            return Err(NoMemory);
        };
        let row = cells.dims().nx as usize + 2;
        let Ok(codes) = Vec::from_elem(alloc, 0u64, row) else {
            return Err(NoMemory);
        };
        Ok(Worker {
            number,
            claims,
            cells,
            ledger,
            made: 0,
            counts,
            codes,
        })
    }

    /// Draws the next slab by the worker's own seat.
    pub fn claim(&mut self, claims: &Claims) -> Claim
        requires table { self.old.claims.of ≡ claims.now }
        requires going { self.old.claims.done ≡ false }
        ensures claim { AnswersClaim self.old.claims self.new.claims result }
        ensures rest { self.new ≡ record self.old { claims = self.new.claims } }
    {
        claims.claim(&mut self.claims)
    }

    /// The worker's number.
    pub fn number(&self) -> u32
        ensures { result ≡ self.now.number }
    {
        self.number
    }

    /// The worker's ledger.
    pub fn ledger(&self) -> &L
        ensures { result.now ≡ self.now.ledger }
    {
        &self.ledger
    }

    /// The counts of the layers of the slabs that the worker surveyed.
    pub fn counts(&self) -> &[LayerCount]
        ensures { result.now ≡ self.now.counts }
    {
        self.counts.as_slice()
    }

    /// How many layers the worker made. They are different ones.
    pub fn made(&self) -> u32
        ensures made { result ≡ length self.now.cells.made }
        ensures once { MadeOnce (layers self.now.cells.of.subject.field.dims) self.now.cells }
    {
        self.made
    }

    /// What the worker leaves.
    pub fn into_parts(self) -> Parts<L>
        ensures parts { (result.claims ≡ self.claims) × (result.cells ≡ self.cells) × (result.ledger ≡ self.ledger) × (result.counts.items ≡ self.counts) }
        ensures made { result.made ≡ length self.cells.made }
    {
        let Worker {
            number: _,
            claims,
            cells,
            ledger,
            made,
            counts,
            codes: _,
        } = self;
        Parts {
            claims,
            cells,
            ledger,
            made,
            counts,
        }
    }
}

/// Surveys a slab that the worker drew: makes those layers of its reach that its looks find not made, and appends
/// what the mesh has in each of the slab's own layers. The ledger counts the vertices of the layers made.
///
/// ```rust
/// while let Claim::Slab(slab) = worker.claim(&claims) {
///     survey_slab(&field, shares, &layout, &cells, slab, &mut worker);
/// }
/// ```
pub fn survey_slab<L: Ledger>(
    field: &Field,
    shares: Shares,
    layout: &Layout,
    cells: &Cells,
    slab: u32,
    worker: &mut Worker<L>,
)
    requires layout { IsLayout layout.now.dims layout.now.slab }
    requires sizes { layout.now.dims ≡ field.now.dims }
    requires cells { cells.now.subject ≡ record { field = field.now; shares = shares } }
    requires slab { slab < slabs field.now.dims layout.now.slab }
    requires drawn { has slab worker.old.claims.drawn ≡ true }
    requires seat { worker.old.cells.of ≡ cells.now }
    requires room { length worker.old.counts + length (slab_layers field.now.dims layout.now.slab slab) ≤ worker.old.room }
    requires ledger { L.count worker.old.ledger + vertices_in field.now.dims (unknown worker.old.cells.seen (reach field.now.dims layout.now.slab slab)) < 2 ^ 64 }
    ensures survey { (grown : List ℕ) × Surveys (reach field.now.dims layout.now.slab slab) worker.old.cells worker.new.cells grown × (L.count worker.new.ledger ≡ L.count worker.old.ledger + vertices_in field.now.dims grown) }
    ensures counts { worker.new.counts ≡ worker.old.counts ++ counts_of_layers cells.now.subject (slab_layers field.now.dims layout.now.slab slab) }
    ensures number { worker.new.number ≡ worker.old.number }
    ensures claims { worker.new.claims ≡ worker.old.claims }
    ensures room { worker.new.room ≡ worker.old.room }
    ensures once { MadeOnce (layers field.now.dims) worker.new.cells }
{
    let (low, high) = layout.reach_of(slab);
    know_layers(
        field,
        shares,
        cells,
        low,
        high,
        worker.codes.as_mut_slice(),
        &mut worker.cells,
        &mut worker.ledger,
        &mut worker.made,
    );
    let (first, past) = layout.layers_of(slab);
    append_counts(
        cells,
        layout.dims,
        first,
        past,
        &mut worker.cells,
        &mut worker.counts,
    );
}
