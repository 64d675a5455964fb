ghost use Rattle.std.specs.Prelude.{◌≡◌, ℕ, ◌+◌, ◌-◌, ◌*◌, ◌<◌, ◌≤◌, ◌^◌, [], All, IfOk, length, sum_by, vec_len, vec_capacity};
ghost use Rattle.std.specs.List.{concat};
ghost use Rattle.definitions.specs.Lattice.{layers, vertices};
ghost use Rattle.definitions.specs.Layout.{slabs};
ghost use Rattle.bcc_lattice.specs.Layouts.{IsLayout};
ghost use Rattle.command_line.specs.Grammar.{IsPlan};
ghost use Rattle.list_words.specs.Words.{EachOnce};
ghost use Rattle.slab_survey.specs.Layers.{vertices_in};
ghost use Rattle.survey_workers.specs.Going.{ledgers_back, made_back, shares_of, IsEnded};
ghost use Rattle.survey.specs.Rises.{Rise};
ghost use Rattle.survey.specs.Surveys.{IsSurvey};

use crate::whole::{Survey, Trace};
use bcc_lattice::Layout;
use command_line::Plan;
use layer_cells::Cells;
use samples::Field;
use slab_claims::Claims;
use slab_survey::Worker;
use snap_rule::Shares;
use st_base::{Gate, Ledger, NoMemory};
use std::alloc::Global;
use std::thread::Threads;
use survey_workers::{Finished, finish, gather, hire, run_to_end};
use vertex_numbers::{LayerCount, Offsets};

/// The survey of workers that have come to their end, and their ledgers.
fn conclude<'f, L: Ledger + Drop>(
    alloc: Global,
    field: &'f Field,
    shares: Shares,
    layout: Layout,
    claims: Claims,
    cells: Cells,
    mut workers: Vec<Worker<L>>,
    table: Vec<LayerCount>,
    mut back: Vec<L>,
) -> Result<(Survey<'f>, Vec<L>), NoMemory>
    requires layout { IsLayout layout.dims layout.slab }
    requires sizes { layout.dims ≡ field.now.dims }
    requires cells { cells.subject ≡ record { field = field.now; shares = shares } }
    requires slabs { claims.slabs ≡ slabs layout.dims layout.slab }
    requires workers { All (λ w. IsEnded cells.subject.field.dims layout.slab claims cells w) workers.items }
    requires some { 0 < length workers.items }
    requires few { length workers.items ≤ 64 }
    requires shares_joined { shares_of workers.items ≡ claims.seats }
    requires table { length table.items ≡ layers cells.subject.field.dims }
    requires back { back.items ≡ [] }
    requires room { length workers.items ≤ vec_capacity back }
    ensures subject { IfOk result (λ r. r.0.subject ≡ record { field = field.now; shares = shares }) }
    ensures layout { IfOk result (λ r. r.0.layout ≡ layout) }
    ensures survey { IfOk result (λ r. IsSurvey r.0) }
    ensures made { IfOk result (λ r. r.0.made ≡ concat (made_back workers.items)) }
    ensures ledgers { IfOk result (λ r. r.1.items ≡ ledgers_back workers.items) }
{
    let Some(last) = workers.pop() else {
        unreachable!()
    };
    let all = gather(&claims, &cells, &layout, workers, last, table, &mut back);
    let Finished {
        drawn,
        published,
        made,
        table,
    } = finish(claims, cells, &layout, all);
    let offsets = Offsets::new(alloc, table.as_slice())?;
    let trace = Trace::new(shares, layout, published, drawn, made);
    Ok((Survey::new(field, offsets, trace), back))
}

/// Surveys a field by as many workers as there are ledgers: the states of all vertices, each layer made by workers
/// and published, and how many nodes and tetrahedra each layer has. The ledgers come back in their order.
///
/// No memory is taken while the workers run. Where there is none, the ledgers are given up.
pub fn survey<'f, G: Gate + Sync, L: Ledger + Send + Drop, R: Threads + Sync>(
    rt: &R,
    alloc: Global,
    field: &'f Field,
    shares: Shares,
    plan: Plan,
    gate: &G,
    ledgers: Vec<L>,
) -> Result<(Survey<'f>, Vec<L>), NoMemory>
    requires plan { IsPlan plan }
    requires workers { length ledgers.items ≡ plan.workers }
    requires room { All (λ l. L.count l + length (vertices field.now.dims) < 2 ^ 64) ledgers.items }
    ensures subject { IfOk result (λ r. r.0.subject ≡ record { field = field.now; shares = shares }) }
    ensures layout { IfOk result (λ r. r.0.layout ≡ record { dims = field.now.dims; slab = plan.slab }) }
    ensures survey { IfOk result (λ r. IsSurvey r.0) }
    ensures ledgers { IfOk result (λ r. Rise L.count field.now.dims ledgers.items r.1.items r.0.made) }
    ensures together { IfOk result (λ r. sum_by L.count r.1.items ≡ sum_by L.count ledgers.items + vertices_in field.now.dims r.0.made) }
{
    let layout = Layout {
        dims: field.dims(),
        slab: plan.slab,
    };
    let count = ledgers.len();
    let (claims, claim_seat) = Claims::new(alloc, layout.slabs(), plan.workers)?;
    let (cells, cell_seat) = Cells::new(alloc, layout, field, shares)?;
    let none = LayerCount {
        h: 0,
        nodes: 0,
        tets: 0,
    };
    let Ok(table) = Vec::from_elem(alloc, none, layout.layers() as usize) else {
        return Err(NoMemory);
    };
    let Ok(back) = Vec::with_capacity(alloc, count) else {
        return Err(NoMemory);
    };
    let workers = hire(
        alloc,
        &claims,
        &cells,
        claim_seat,
        cell_seat,
        layout.layers(),
        ledgers,
    )?;
    let workers = run_to_end(rt, field, shares, &layout, &claims, &cells, gate, workers);
    conclude(
        alloc, field, shares, layout, claims, cells, workers, table, back,
    )
}
