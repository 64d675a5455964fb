ghost use Rattle.std.specs.Prelude.{◌≡◌, ℕ, ◌+◌, ◌<◌, ◌^◌, true, length, All, slice_index_or};
ghost use Rattle.definitions.specs.Lattice.{vertices};
ghost use Rattle.definitions.specs.Layout.{slabs};
ghost use Rattle.bcc_lattice.specs.Layouts.{IsLayout};
ghost use Rattle.slab_survey.specs.Layers.{vertices_in};
ghost use Rattle.survey_workers.specs.Going.{shares_of, IsEnded, IsGoing, IsReady};

use bcc_lattice::Layout;
use crews::run_each;
use layer_cells::Cells;
use samples::Field;
use slab_claims::{Claim, Claims};
use slab_survey::{Worker, survey_slab};
use snap_rule::Shares;
use st_base::{Gate, Ledger};
use std::thread::Threads;

/// Draws slabs and surveys each, until there are no more.
fn run_worker<G: Gate, L: Ledger>(
    field: &Field,
    shares: Shares,
    layout: &Layout,
    claims: &Claims,
    cells: &Cells,
    gate: &G,
    worker: &mut Worker<L>,
)
    requires layout { IsLayout layout.now.dims layout.now.slab }
    requires sizes { layout.now.dims ≡ field.now.dims }
    requires cells { cells.now.subject ≡ record { field = field.now; shares = shares } }
    requires slabs { claims.now.slabs ≡ slabs field.now.dims layout.now.slab }
    requires ready { IsReady field.now.dims claims.now cells.now worker.old }
    requires ledger { L.count worker.old.ledger + length (vertices field.now.dims) < 2 ^ 64 }
    ensures went { IsGoing L.count field.now.dims layout.now.slab claims.now cells.now worker.old worker.new worker.new.claims.drawn }
    ensures done { worker.new.claims.done ≡ true }
{
    let mut next = 0u64;
    while let Claim::Slab(slab) = worker.claim(claims) {
        gate.pass(worker.number(), slab);
        survey_slab(field, shares, layout, cells, slab, worker);
        next = u64::from(slab) + 1;
    }
}

/// Runs the workers to their end, each in a thread of its own where one can be made.
pub fn run_to_end<G: Gate + Sync, L: Ledger + Send, R: Threads + Sync>(
    rt: &R,
    field: &Field,
    shares: Shares,
    layout: &Layout,
    claims: &Claims,
    cells: &Cells,
    gate: &G,
    workers: Vec<Worker<L>>,
) -> Vec<Worker<L>>
    requires some { 0 < length workers.items }
    requires layout { IsLayout layout.now.dims layout.now.slab }
    requires sizes { layout.now.dims ≡ field.now.dims }
    requires cells { cells.now.subject ≡ record { field = field.now; shares = shares } }
    requires slabs { claims.now.slabs ≡ slabs field.now.dims layout.now.slab }
    requires ready { All (λ w. IsReady field.now.dims claims.now cells.now w × (L.count w.ledger + length (vertices field.now.dims) < 2 ^ 64)) workers.items }
    ensures ended { All (λ w. IsEnded field.now.dims layout.now.slab claims.now cells.now w) result.items }
    ensures shares { shares_of result.items ≡ shares_of workers.items }
    ensures len { length result.items ≡ length workers.items }
    ensures ledgers { (i : ℕ) (d : _) → i < length workers.items → L.count (slice_index_or result.items i d).ledger ≡ L.count (slice_index_or workers.items i d).ledger + vertices_in field.now.dims (slice_index_or result.items i d).cells.made }
{
    run_each(
        rt,
        workers,
        &|_, worker| run_worker(field, shares, layout, claims, cells, gate, worker),
    )
}
