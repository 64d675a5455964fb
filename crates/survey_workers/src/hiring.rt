ghost use Rattle.std.specs.Prelude.{◌≡◌, ◌+◌, ◌<◌, ◌≤◌, ◌^◌, [], All, IfOk, false, length};
ghost use Rattle.definitions.specs.Lattice.{layers, vertices};
ghost use Rattle.survey_workers.specs.Going.{ledgers_back, shares_of, IsReady};

use layer_cells::{CellSeat, Cells};
use slab_claims::{ClaimSeat, Claims};
use slab_survey::Worker;
use st_base::{Ledger, NoMemory};
use std::alloc::Global;

/// A worker for each ledger, from the last one to the first, with room for the counts of so many layers.
pub fn hire<L: Ledger + Drop>(
    alloc: Global,
    claims: &Claims,
    cells: &Cells,
    mut claim_seat: ClaimSeat,
    mut cell_seat: CellSeat,
    room: u32,
    mut ledgers: Vec<L>,
) -> Result<Vec<Worker<L>>, NoMemory>
    requires claim_seat { claim_seat ≡ record { of = claims.now; share = length ledgers.items; drawn = []; done = false } }
    requires cell_seat { cell_seat ≡ record { of = cells.now; seen = []; down = []; put = []; made = [] } }
    requires some { 0 < length ledgers.items }
    requires few { length ledgers.items ≤ 64 }
    requires room { room ≡ layers cells.now.subject.field.dims }
    requires ledgers { All (λ l. L.count l + length (vertices cells.now.subject.field.dims) < 2 ^ 64) ledgers.items }
    ensures ready { IfOk result (λ ws. All (λ w. IsReady cells.now.subject.field.dims claims.now cells.now w × (L.count w.ledger + length (vertices cells.now.subject.field.dims) < 2 ^ 64)) ws.items) }
    ensures shares { IfOk result (λ ws. shares_of ws.items ≡ length ledgers.items) }
    ensures len { IfOk result (λ ws. length ws.items ≡ length ledgers.items) }
    ensures ledgers { IfOk result (λ ws. ledgers_back ws.items ≡ ledgers.items) }
{
    let Ok(mut workers) = Vec::with_capacity(alloc, ledgers.len()) else {
        return Err(NoMemory);
    };
    while ledgers.len() > 1 {
        let claim = claims.split(&mut claim_seat);
        let cell = cells.split(&mut cell_seat);
        let Some(ledger) = ledgers.pop() else {
            unreachable!()
        };
        let number = ledgers.len() as u32;
        workers.push_reserved(Worker::new(alloc, number, claim, cell, ledger, room)?);
    }
    let Some(ledger) = ledgers.pop() else {
        unreachable!()
    };
    workers.push_reserved(Worker::new(alloc, 0, claim_seat, cell_seat, ledger, room)?);
    Ok(workers)
}
