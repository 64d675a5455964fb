ghost use Rattle.std.specs.Prelude.{◌≡◌, ℕ, ◌+◌, ◌-◌, ◌*◌, ◌/◌, ◌%◌, ◌^◌, ◌<◌, ◌≤◌, None, IfSome, length, map, slice_index};
ghost use Rattle.definitions.specs.Lattice.{InDomain, IsDims, layer, layers, vertex, vertices};
ghost use Rattle.definitions.specs.Layout.{layer_len};
ghost use Rattle.definitions.specs.States.{code, snapped, state_of};
ghost use Rattle.lattice_counts.specs.Counts.{row_len, vertex_in_layer};
ghost use Rattle.snap_rule.specs.Alike.{HasAround, TellAround, vertex_of_row};

use crate::Shares;
use crate::columns::signs_around;
use crate::vertex::state_at;
use bcc_lattice::{code, columns, layers, rows, vertex_in_row};
use definitions::Sign;
use samples::{Field, SignWords};
use st_base::{Ledger, Vertex};

/// How many vertices of a row one word tells of.
const BLOCK: u32 = 61;

/// The code of a vertex of a sign that is not moved.
#[inline(always)]
fn sign_code(sign: Sign) -> u64
    ensures { result ≡ code (snapped sign None) }
{
    match sign {
        Sign::Minus => 1,
        Sign::Zero => 2,
        Sign::Plus => 3,
    }
}

/// The code of a vertex: at once where all corners around it are told to have one sign.
#[inline(always)]
#[tactic(auto, using(crate::proofs::Alike::state_of_alike))]
fn code_at(field: &Field, shares: Shares, told: Option<Sign>, v: Vertex) -> u64
    requires domain { InDomain field.now.dims v }
    requires told { IfSome told (λ s. HasAround field.now v s) }
    ensures { result ≡ code (state_of field.now shares v) }
{
    match told {
        Some(sign) => sign_code(sign),
        None => code(state_at(field, shares, v)),
    }
}

/// Writes the codes of `count` vertices of a row from vertex `i` on, from place `at` on.
#[inline(always)]
#[tactic(auto, using(lattice_counts::proofs::Sizes::nx_small, lattice_counts::proofs::Sizes::ny_small))]
fn write_each(
    field: &Field,
    shares: Shares,
    h: u32,
    j: u32,
    i: u32,
    signs: SignWords,
    count: u32,
    at: usize,
    out: &mut [u64],
)
    requires sizes { IsDims field.now.dims }
    requires layer { h < layers field.now.dims }
    requires row { j < row_len field.now.dims.ny h }
    requires columns { i + count ≤ row_len field.now.dims.nx h }
    requires block { count ≤ 61 }
    requires signs { TellAround field.now h j i signs }
    requires room { at + count ≤ length out.old }
    ensures row { (b : ℕ) → b < count → slice_index out.new (at + b) ≡ code (state_of field.now shares (vertex_of_row h j (i + b))) }
    ensures below { (k : ℕ) → k < at → slice_index out.new k ≡ slice_index out.old k }
{
    for b in 0..count {
        out[at + b as usize] = code_at(field, shares, signs.sign_at(b), vertex_in_row(h, j, i + b));
    }
}

/// Writes one code at `count` places from `at` on.
#[inline(always)]
fn write_same(code: u64, count: u32, at: usize, out: &mut [u64])
    requires room { at + count ≤ length out.old }
    ensures same { (b : ℕ) → b < count → slice_index out.new (at + b) ≡ code }
    ensures below { (k : ℕ) → k < at → slice_index out.new k ≡ slice_index out.old k }
{
    for b in 0..count {
        out[at + b as usize] = code;
    }
}

/// The same as `write_each`: at once where all vertices are told to have one sign around.
fn write_block(
    field: &Field,
    shares: Shares,
    h: u32,
    j: u32,
    i: u32,
    count: u32,
    at: usize,
    out: &mut [u64],
)
    requires sizes { IsDims field.now.dims }
    requires layer { h < layers field.now.dims }
    requires row { j < row_len field.now.dims.ny h }
    requires some { 1 ≤ count }
    requires columns { i + count ≤ row_len field.now.dims.nx h }
    requires block { count ≤ 61 }
    requires room { at + count ≤ length out.old }
    ensures row { (b : ℕ) → b < count → slice_index out.new (at + b) ≡ code (state_of field.now shares (vertex_of_row h j (i + b))) }
    ensures below { (k : ℕ) → k < at → slice_index out.new k ≡ slice_index out.old k }
{
    let signs = signs_around(field, h, j, i);
    match signs.first_sign(count) {
        Some(sign) => write_same(sign_code(sign), count, at, out),
        None => write_each(field, shares, h, j, i, signs, count, at, out),
    }
}

/// Writes the codes of row `j` of a layer from a place on.
fn write_row(field: &Field, shares: Shares, h: u32, j: u32, start: usize, out: &mut [u64])
    requires layer { h < layers field.now.dims }
    requires row { j < row_len field.now.dims.ny h }
    requires room { start + row_len field.now.dims.nx h ≤ length out.old }
    ensures row { (i : ℕ) → i < row_len field.now.dims.nx h → slice_index out.new (start + i) ≡ code (state_of field.now shares (vertex h (j * 2 + h % 2) (i * 2 + h % 2))) }
    ensures below { (k : ℕ) → k < start → slice_index out.new k ≡ slice_index out.old k }
{
    let columns = columns(field.dims(), h);
    for m in 0..(columns + BLOCK - 1) / BLOCK {
        let i = m * BLOCK;
        let count = BLOCK.min(columns - i);
        write_block(field, shares, h, j, i, count, start + i as usize, out);
    }
}

/// Writes the codes of a layer from a place on, and answers where they end.
pub fn write_layer(field: &Field, shares: Shares, h: u32, start: usize, out: &mut [u64]) -> usize
    requires layer { h < layers field.now.dims }
    requires room { start + layer_len field.now.dims h ≤ length out.old }
    ensures layer { (p : ℕ) → p < layer_len field.now.dims h → slice_index out.new (start + p) ≡ code (state_of field.now shares (vertex_in_layer field.now.dims h p)) }
    ensures below { (k : ℕ) → k < start → slice_index out.new k ≡ slice_index out.old k }
    ensures end { result ≡ start + layer_len field.now.dims h }
    ensures sizes { IsDims field.now.dims }
{
    let dims = field.dims();
    let row = columns(dims, h) as usize;
    let mut at = start;
    for j in 0..rows(dims, h) {
        write_row(field, shares, h, j, at, out);
        at += row;
    }
    at
}

/// Writes the codes of row `j` of a layer, in order, at the head of `out`, and has the ledger count
/// its vertices.
pub fn row_states<L: Ledger>(
    field: &Field,
    shares: Shares,
    h: u32,
    j: u32,
    ledger: &mut L,
    out: &mut [u64],
)
    requires layer { h < layers field.now.dims }
    requires row { j < row_len field.now.dims.ny h }
    requires len { row_len field.now.dims.nx h ≤ length out.old }
    requires room { L.count ledger.old + row_len field.now.dims.nx h < 2 ^ 64 }
    ensures codes { (i : ℕ) → i < row_len field.now.dims.nx h → slice_index out.new i ≡ code (state_of field.now shares (vertex h (j * 2 + h % 2) (i * 2 + h % 2))) }
    ensures count { L.count ledger.new ≡ L.count ledger.old + row_len field.now.dims.nx h }
{
    ledger.add(columns(field.dims(), h) as u64);
    write_row(field, shares, h, j, 0, out);
}

/// Writes the codes of a layer, in order, and has the ledger count its vertices.
pub fn layer_states<L: Ledger>(
    field: &Field,
    shares: Shares,
    h: u32,
    ledger: &mut L,
    out: &mut [u64],
)
    requires layer { h < layers field.now.dims }
    requires len { length out.old ≡ layer_len field.now.dims h }
    requires room { L.count ledger.old + layer_len field.now.dims h < 2 ^ 64 }
    ensures codes { out.new ≡ map (λ v. code (state_of field.now shares v)) (layer field.now.dims h) }
    ensures count { L.count ledger.new ≡ L.count ledger.old + layer_len field.now.dims h }
{
    ledger.add(out.len() as u64);
    let _end = write_layer(field, shares, h, 0, out);
}

/// Writes the codes of all vertices, in order.
pub fn write_all(field: &Field, shares: Shares, out: &mut [u64])
    requires { length out.old ≡ length (vertices field.now.dims) }
    ensures { out.new ≡ map (λ v. code (state_of field.now shares v)) (vertices field.now.dims) }
{
    let mut at = 0;
    for h in 0..layers(field.dims()) {
        at = write_layer(field, shares, h, at, out);
    }
}
