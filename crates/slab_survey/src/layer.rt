ghost use Rattle.std.specs.Prelude.{◌≡◌, ℕ, ◌+◌, ◌-◌, ◌*◌, ◌%◌, ◌<◌, ◌≤◌, ◌^◌, ◌++◌, ◌∷◌, [], true, length};
ghost use Rattle.definitions.specs.Lattice.{IsDims, layers};
ghost use Rattle.definitions.specs.Layout.{layer_len, layer_start};
ghost use Rattle.definitions.specs.States.{states};
ghost use Rattle.lattice_counts.specs.Counts.{row_len};
ghost use Rattle.list_words.specs.Words.{has, joined};
ghost use Rattle.vertex_numbers.specs.Counts.{count_of_layer};
ghost use Rattle.vertex_numbers.specs.Sources.{KnowsAround};
ghost use Rattle.slab_survey.specs.Layers.{HasPut};

use crate::source::KnownLayers;
use bcc_lattice::{columns, id, rows, vertex_in_row};
use layer_cells::{CellSeat, Cells};
use samples::Field;
use snap_rule::{Shares, row_states};
use st_base::{Dims, Ledger};
use vertex_numbers::{LayerCount, layer_count};

/// Puts the states of row `j` of layer `h`, whose codes are made in `codes` first.
#[tactic(auto, using(lattice_counts::proofs::Sizes::nx_small, lattice_counts::proofs::Sizes::ny_small))]
fn put_row<L: Ledger>(
    field: &Field,
    shares: Shares,
    cells: &Cells,
    h: u32,
    j: u32,
    codes: &mut [u64],
    seat: &mut CellSeat,
    ledger: &mut L,
)
    requires cells { cells.now.subject ≡ record { field = field.now; shares = shares } }
    requires seat { seat.old.of ≡ cells.now }
    requires layer { h < layers field.now.dims }
    requires row { j < row_len field.now.dims.ny h }
    requires codes { row_len field.now.dims.nx h ≤ length codes.old }
    requires room { L.count ledger.old + row_len field.now.dims.nx h < 2 ^ 64 }
    ensures put { HasPut (layer_start field.now.dims h + j * row_len field.now.dims.nx h) (layer_start field.now.dims h + j * row_len field.now.dims.nx h + row_len field.now.dims.nx h) seat.old seat.new }
    ensures count { L.count ledger.new ≡ L.count ledger.old + row_len field.now.dims.nx h }
    ensures sizes { IsDims field.now.dims }
{
    row_states(field, shares, h, j, ledger, codes);
    let dims = field.dims();
    let start = id(dims, vertex_in_row(h, j, 0));
    for i in 0..columns(dims, h) {
        let v = vertex_in_row(h, j, i);
        cells.put(seat, v, start + i, codes[i as usize]);
    }
}

/// Puts the states of layer `h`. The codes of each row are made in `codes` first.
#[tactic(auto, using(lattice_counts::proofs::Sizes::ny_small))]
fn put_layer<L: Ledger>(
    field: &Field,
    shares: Shares,
    cells: &Cells,
    h: u32,
    codes: &mut [u64],
    seat: &mut CellSeat,
    ledger: &mut L,
)
    requires cells { cells.now.subject ≡ record { field = field.now; shares = shares } }
    requires seat { seat.old.of ≡ cells.now }
    requires layer { h < layers field.now.dims }
    requires codes { field.now.dims.nx + 2 ≤ length codes.old }
    requires room { L.count ledger.old + layer_len field.now.dims h < 2 ^ 64 }
    ensures put { HasPut (layer_start field.now.dims h) (layer_start field.now.dims h + layer_len field.now.dims h) seat.old seat.new }
    ensures count { L.count ledger.new ≡ L.count ledger.old + layer_len field.now.dims h }
{
    for j in 0..rows(field.dims(), h) {
        put_row(field, shares, cells, h, j, codes, seat, ledger);
    }
}

/// Makes layer `h`, whose flag the seat's last look found down: puts its states and raises its flag. The codes of each
/// row are made in `codes` first.
pub fn make_layer<L: Ledger>(
    field: &Field,
    shares: Shares,
    cells: &Cells,
    h: u32,
    codes: &mut [u64],
    seat: &mut CellSeat,
    ledger: &mut L,
)
    requires cells { cells.now.subject ≡ record { field = field.now; shares = shares } }
    requires seat { seat.old.of ≡ cells.now }
    requires layer { h < layers field.now.dims }
    requires codes { field.now.dims.nx + 2 ≤ length codes.old }
    requires down { has h seat.old.down ≡ true }
    requires room { L.count ledger.old + layer_len field.now.dims h < 2 ^ 64 }
    ensures of { seat.new.of ≡ seat.old.of }
    ensures seen { seat.new.seen ≡ joined h seat.old.seen }
    ensures made { seat.new.made ≡ seat.old.made ++ h ∷ [] }
    ensures count { L.count ledger.new ≡ L.count ledger.old + layer_len field.now.dims h }
{
    put_layer(field, shares, cells, h, codes, seat, ledger);
    cells.raise(seat, h);
}

/// What the mesh has in layer `h`, where the seat knows the layers around.
pub fn count_layer(cells: &Cells, dims: Dims, h: u32, seat: &mut CellSeat) -> LayerCount
    requires seat { seat.old.of ≡ cells.now }
    requires sizes { dims ≡ cells.now.subject.field.dims }
    requires dims { IsDims dims }
    requires layer { h < layers dims }
    requires known { KnowsAround dims (λ g. has g seat.old.seen ≡ true) h }
    ensures count { result ≡ count_of_layer cells.now.subject.field.dims (states cells.now.subject.field cells.now.subject.shares) h }
    ensures same { seat.new ≡ seat.old }
{
    let mut known = KnownLayers { cells, seat, dims };
    layer_count(&mut known, dims, h)
}
