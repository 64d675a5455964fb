ghost use Rattle.std.specs.Prelude.{◌≡◌, ℕ, ◌+◌, ◌-◌, ◌*◌, ◌<◌, ◌≤◌, ◌^◌, ◌++◌, ◌∷◌, [], List, true, false, length, vec_len, vec_capacity, MatchBool};
ghost use Rattle.std.specs.List.{range_with_len};
ghost use Rattle.definitions.specs.Lattice.{IsDims, layers};
ghost use Rattle.definitions.specs.Layout.{layer_len};
ghost use Rattle.list_words.specs.Words.{has, joined};
ghost use Rattle.vertex_numbers.specs.Sources.{KnowsAround};
ghost use Rattle.slab_survey.specs.Layers.{counts_of_layers, unknown, vertices_in, MadeOnce, Surveys};

use crate::layer::{count_layer, make_layer};
use layer_cells::{CellSeat, Cells};
use samples::Field;
use snap_rule::Shares;
use st_base::{Dims, Ledger};
use vertex_numbers::LayerCount;

/// Looks at layer `h`, and makes it where its flag was down. True where it made it.
fn know_layer<L: Ledger>(
    field: &Field,
    shares: Shares,
    cells: &Cells,
    h: u32,
    codes: &mut [u64],
    seat: &mut CellSeat,
    ledger: &mut L,
) -> bool
    requires cells { cells.now.subject ≡ record { field = field.now; shares = shares } }
    requires seat { seat.old.of ≡ cells.now }
    requires layer { h < layers field.now.dims }
    requires codes { field.now.dims.nx + 2 ≤ length codes.old }
    requires room { has h seat.old.seen ≡ false → L.count ledger.old + layer_len field.now.dims h < 2 ^ 64 }
    ensures of { seat.new.of ≡ seat.old.of }
    ensures seen { seat.new.seen ≡ joined h seat.old.seen }
    ensures made { MatchBool result
        ((seat.new.made ≡ seat.old.made ++ h ∷ []) × (has h seat.old.seen ≡ false) × (L.count ledger.new ≡ L.count ledger.old + layer_len field.now.dims h))
        ((seat.new.made ≡ seat.old.made) × (L.count ledger.new ≡ L.count ledger.old)) }
{
    if cells.look(seat, h) {
        return false;
    }
    make_layer(field, shares, cells, h, codes, seat, ledger);
    true
}

/// Looks at each of the layers from `from` up to `to`, and makes those whose flag was down. `made` counts the
/// layers that the seat made.
pub fn know_layers<L: Ledger>(
    field: &Field,
    shares: Shares,
    cells: &Cells,
    from: u32,
    to: u32,
    codes: &mut [u64],
    seat: &mut CellSeat,
    ledger: &mut L,
    made: &mut u32,
)
    requires cells { cells.now.subject ≡ record { field = field.now; shares = shares } }
    requires seat { seat.old.of ≡ cells.now }
    requires dims { IsDims field.now.dims }
    requires from { from ≤ to }
    requires to { to ≤ layers field.now.dims }
    requires codes { field.now.dims.nx + 2 ≤ length codes.old }
    requires room { L.count ledger.old + vertices_in field.now.dims (unknown seat.old.seen (range_with_len from (to - from))) < 2 ^ 64 }
    requires made { made.old ≡ length seat.old.made }
    requires once { MadeOnce (layers field.now.dims) seat.old }
    ensures survey { (grown : List ℕ) × Surveys (range_with_len from (to - from)) seat.old seat.new grown × (L.count ledger.new ≡ L.count ledger.old + vertices_in field.now.dims grown) }
    ensures made { made.new ≡ length seat.new.made }
    ensures once { MadeOnce (layers field.now.dims) seat.new }
{
    for h in from..to {
        if know_layer(field, shares, cells, h, codes, seat, ledger) {
            *made += 1;
        }
    }
}

/// Appends what the mesh has in each of the layers from `from` up to `to`.
pub fn append_counts(
    cells: &Cells,
    dims: Dims,
    from: u32,
    to: u32,
    seat: &mut CellSeat,
    counts: &mut Vec<LayerCount>,
)
    requires seat { seat.old.of ≡ cells.now }
    requires sizes { dims ≡ cells.now.subject.field.dims }
    requires dims { IsDims dims }
    requires from { from ≤ to }
    requires to { to ≤ layers dims }
    requires known { (h : ℕ) → from ≤ h → h < to → KnowsAround dims (λ g. has g seat.old.seen ≡ true) h }
    requires room { vec_len counts.old + (to - from) ≤ vec_capacity counts.old }
    ensures same { seat.new ≡ seat.old }
    ensures counts { counts.new.items ≡ counts.old.items ++ counts_of_layers cells.now.subject (range_with_len from (to - from)) }
    ensures room { vec_capacity counts.new ≡ vec_capacity counts.old }
{
    for h in from..to {
        let count = count_layer(cells, dims, h, seat);
        counts.push_reserved(count);
    }
}
