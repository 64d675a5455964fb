ghost use Rattle.std.specs.Prelude.{◌≡◌, ◌+◌, ◌-◌, ◌*◌, ◌<◌, ◌≤◌, ◌^◌, ◌++◌, ◌∷◌, [], All, true, length, vec_len, vec_capacity};
ghost use Rattle.std.specs.List.{concat};
ghost use Rattle.definitions.specs.Lattice.{layers};
ghost use Rattle.definitions.specs.Layout.{slabs};
ghost use Rattle.definitions.specs.States.{states};
ghost use Rattle.bcc_lattice.specs.Layouts.{IsLayout};
ghost use Rattle.list_words.specs.Words.{EachOnce};
ghost use Rattle.vertex_numbers.specs.Counts.{layer_counts};
ghost use Rattle.survey_workers.specs.Going.{ledgers_back, made_back, shares_of, IsEnded};
ghost use Rattle.survey_workers.specs.Tables.{with_counts, IsGathered};

use bcc_lattice::Layout;
use layer_cells::{CellSeat, Cells, Published};
use slab_claims::{ClaimSeat, Claims, Drawn};
use slab_survey::{Parts, Worker};
use st_base::Ledger;
use vertex_numbers::LayerCount;

/// What workers leave together: their seats joined, how many layers they made, and the counts of the layers of the
/// slabs that they drew, in a table by layers.
pub struct Gathered {
    pub claims: ClaimSeat,
    pub cells: CellSeat,
    pub made: u32,
    pub table: Vec<LayerCount>,
}

/// Puts counts into the table by layers.
fn fill(table: &mut Vec<LayerCount>, counts: &[LayerCount])
    requires { All (λ c. c.h < length table.old.items) counts.now }
    ensures { table.new.items ≡ with_counts table.old.items counts.now }
{
    for k in 0..counts.len() {
        let count = counts[k];
        table[count.h as usize] = count;
    }
}

/// Takes in one more worker, and hands its ledger back.
fn take_in<L: Ledger>(
    claims: &Claims,
    cells: &Cells,
    _layout: &Layout,
    all: &mut Gathered,
    worker: Worker<L>,
) -> L
    requires gathered { IsGathered _layout.now.slab claims.now cells.now all.old }
    requires worker { IsEnded cells.now.subject.field.dims _layout.now.slab claims.now cells.now worker }
    requires room { all.old.made + layers cells.now.subject.field.dims < 2 ^ 32 }
    ensures gathered { IsGathered _layout.now.slab claims.now cells.now all.new }
    ensures ledger { result ≡ worker.ledger }
    ensures share { all.new.claims.share ≡ all.old.claims.share + worker.claims.share }
    ensures layers_made { all.new.cells.made ≡ all.old.cells.made ++ worker.cells.made }
    ensures few { all.new.made ≤ all.old.made + layers cells.now.subject.field.dims }
{
    let Parts {
        claims: claim_seat,
        cells: cell_seat,
        ledger,
        made,
        counts,
    } = worker.into_parts();
    claims.join(&mut all.claims, claim_seat);
    cells.join(&mut all.cells, cell_seat);
    all.made += made;
    fill(&mut all.table, counts.as_slice());
    ledger
}

/// Puts together what the workers leave, from the last one to the first, and hands their ledgers back.
pub fn gather<L: Ledger>(
    claims: &Claims,
    cells: &Cells,
    layout: &Layout,
    mut workers: Vec<Worker<L>>,
    last: Worker<L>,
    table: Vec<LayerCount>,
    back: &mut Vec<L>,
) -> Gathered
    requires layout { IsLayout layout.now.dims layout.now.slab }
    requires sizes { layout.now.dims ≡ cells.now.subject.field.dims }
    requires workers { All (λ w. IsEnded cells.now.subject.field.dims layout.now.slab claims.now cells.now w) workers.items }
    requires last { IsEnded cells.now.subject.field.dims layout.now.slab claims.now cells.now last }
    requires few { length workers.items < 64 }
    requires table { length table.items ≡ layers cells.now.subject.field.dims }
    requires back { back.old.items ≡ [] }
    requires room { vec_len workers + 1 ≤ vec_capacity back.old }
    ensures gathered { IsGathered layout.now.slab claims.now cells.now result }
    ensures share { result.claims.share ≡ shares_of workers.items + last.claims.share }
    ensures ledgers { back.new.items ≡ last.ledger ∷ ledgers_back workers.items }
    ensures layers_made { result.cells.made ≡ concat (last.cells.made ∷ made_back workers.items) }
{
    let Parts {
        claims: claim_seat,
        cells: cell_seat,
        ledger,
        made,
        counts,
    } = last.into_parts();
    let mut table = table;
    fill(&mut table, counts.as_slice());
    back.push_reserved(ledger);
    let mut all = Gathered {
        claims: claim_seat,
        cells: cell_seat,
        made,
        table,
    };
    while let Some(worker) = workers.pop() {
        let ledger = take_in(claims, cells, layout, &mut all, worker);
        back.push_reserved(ledger);
    }
    workers.destroy_empty();
    all
}

/// What a survey ends with.
pub struct Finished {
    pub drawn: Drawn,
    pub published: Published,
    pub made: u32,
    pub table: Vec<LayerCount>,
}

/// Ends the claims and the cells.
pub fn finish(claims: Claims, cells: Cells, _layout: &Layout, all: Gathered) -> Finished
    requires layout { IsLayout _layout.now.dims _layout.now.slab }
    requires sizes { _layout.now.dims ≡ cells.subject.field.dims }
    requires slabs { claims.slabs ≡ slabs _layout.now.dims _layout.now.slab }
    requires gathered { IsGathered _layout.now.slab claims cells all }
    requires share { all.claims.share ≡ claims.seats }
    ensures drawn { EachOnce (slabs _layout.now.dims _layout.now.slab) result.drawn.list }
    ensures published { result.published ≡ record { subject = cells.subject; made = all.cells.made } }
    ensures made { result.made ≡ length all.cells.made }
    ensures few { result.made ≤ layers _layout.now.dims + 4 * (slabs _layout.now.dims _layout.now.slab - 1) }
    ensures table { result.table.items ≡ layer_counts cells.subject.field.dims (states cells.subject.field cells.subject.shares) }
{
    let Gathered {
        claims: claim_seat,
        cells: cell_seat,
        made,
        table,
    } = all;
    let drawn = claims.close(claim_seat);
    drawn.each_once();
    let published = cells.close(cell_seat);
    Finished {
        drawn,
        published,
        made,
        table,
    }
}
