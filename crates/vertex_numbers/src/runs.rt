ghost use Rattle.std.specs.Prelude.{◌≡◌, ◌≤◌, ◌<◌, ◌+◌, true, ℕ};
ghost use Rattle.definitions.specs.Lattice.{IsDims, layers};
ghost use Rattle.lattice_counts.specs.Counts.{row_len};
ghost use Rattle.vertex_numbers.specs.Alike.{HasNext, IsColumn};
ghost use Rattle.vertex_numbers.specs.Rows.{AreAlikeWithin, IsRow, row_vertex, sign_if_plus};
ghost use Rattle.vertex_numbers.specs.Sources.{KnowsAround};

use crate::StateSource;
use crate::alike::has_column;
use crate::steps::{Steps, steps_of};
use bcc_lattice::{columns, ids_below, layers, vertex_in_row};
use definitions::Sign;
use st_base::Dims;

/// Row `j` of layer `h`: the id of its first vertex, the steps from its ids to those of neighbours upwards, and how many
/// of its vertices, the first ones, have a next one whose column is in the domain.
#[derive(Clone, Copy)]
pub struct Row {
    pub h: u32,
    pub j: u32,
    pub start: u32,
    pub steps: Steps,
    pub followed: u32,
}

/// How many vertices of a row have a next one whose column is in the domain.
#[inline(always)]
fn followed(dims: Dims, h: u32, j: u32) -> u32
    requires sizes { IsDims dims }
    requires layer { h < layers dims }
    requires row { j < row_len dims.ny h }
    ensures next { (i : ℕ) → i < result → HasNext dims (row_vertex h j i) }
    ensures within { result < row_len dims.nx h }
{
    let y = j * 2 + h % 2;
    if 1 <= y && y + 2 < 2 * dims.ny + 3 && h + 2 < layers(dims) {
        columns(dims, h) - 1
    } else {
        0
    }
}

/// Row `j` of layer `h`.
#[inline(always)]
pub fn row_of(dims: Dims, h: u32, j: u32) -> Row
    requires sizes { IsDims dims }
    requires layer { h < layers dims }
    requires row { j < row_len dims.ny h }
    ensures h { result.h ≡ h }
    ensures j { result.j ≡ j }
    ensures row { IsRow dims result }
{
    Row {
        h,
        j,
        start: ids_below(dims, h) + j * columns(dims, h),
        steps: steps_of(dims, h, j * 2 + h % 2),
        followed: followed(dims, h, j),
    }
}

/// Whether the column of the vertex after place `i` of a row has a sign.
#[inline(always)]
fn has_next_column<S: StateSource>(from: &mut S, dims: Dims, row: Row, i: u32, sign: Sign) -> bool
    requires dims { IsDims dims }
    requires sizes { S.sizes from.old ≡ dims }
    requires row { IsRow dims row }
    requires known { KnowsAround dims (S.knows from.old) row.h }
    requires place { i < row.followed }
    ensures column { result ≡ true → IsColumn dims (S.told from.old) (row_vertex row.h row.j (i + 1)) sign }
    ensures same { S.unchanged from.old from.new }
{
    let v = vertex_in_row(row.h, row.j, i + 1);
    has_column(from, dims, v, row.start + (i + 1), row.steps, sign)
}

/// The first place from `i` on, where the column has a sign, at which the vertex and its neighbours upwards may have
/// different signs.
#[inline(always)]
fn alike_until<S: StateSource>(from: &mut S, dims: Dims, row: Row, i: u32, sign: Sign) -> u32
    requires dims { IsDims dims }
    requires sizes { S.sizes from.old ≡ dims }
    requires row { IsRow dims row }
    requires known { KnowsAround dims (S.knows from.old) row.h }
    requires place { i ≤ row.followed }
    requires column { IsColumn dims (S.told from.old) (row_vertex row.h row.j i) sign }
    ensures alike { AreAlikeWithin dims (S.told from.old) row i result sign }
    ensures low { i ≤ result }
    ensures high { result ≤ row.followed }
    ensures same { S.unchanged from.old from.new }
{
    for k in i..row.followed {
        if !has_next_column(from, dims, row, k, sign) {
            return k;
        }
    }
    row.followed
}

/// Vertices of a row one after another, before place `end`, that are all Plus or all Minus with their neighbours upwards.
#[derive(Clone, Copy)]
pub struct Run {
    pub is_plus: bool,
    pub end: u32,
}

/// The run after place `i` of a row.
#[inline(always)]
pub fn run_after<S: StateSource>(from: &mut S, dims: Dims, row: Row, i: u32) -> Run
    requires dims { IsDims dims }
    requires sizes { S.sizes from.old ≡ dims }
    requires row { IsRow dims row }
    requires known { KnowsAround dims (S.knows from.old) row.h }
    requires place { i < row_len dims.nx row.h }
    ensures alike { AreAlikeWithin dims (S.told from.old) row (i + 1) result.end (sign_if_plus result.is_plus) }
    ensures low { i < result.end }
    ensures high { result.end ≤ row_len dims.nx row.h }
    ensures same { S.unchanged from.old from.new }
{
    if i < row.followed {
        if has_next_column(from, dims, row, i, Sign::Plus) {
            return Run {
                is_plus: true,
                end: alike_until(from, dims, row, i + 1, Sign::Plus),
            };
        }
        if has_next_column(from, dims, row, i, Sign::Minus) {
            return Run {
                is_plus: false,
                end: alike_until(from, dims, row, i + 1, Sign::Minus),
            };
        }
    }
    Run {
        is_plus: false,
        end: i + 1,
    }
}
