ghost use Rattle.std.specs.Prelude.{◌≡◌, ◌+◌, ◌-◌, ◌*◌, ◌/◌, ◌%◌, ◌<◌, ◌≤◌, ◌^◌};
ghost use Rattle.definitions.specs.Lattice.{layers};
ghost use Rattle.definitions.specs.Stencils.{is_plus, is_zero, is_minus};
ghost use Rattle.formats.specs.Texts.{sign_count};
ghost use Rattle.lattice_counts.specs.Counts.{row_len};
ghost use Rattle.samples.specs.SignCounts.{signs_by, both, AreAtMost, one, row_count, layer_count};

use crate::field::Field;
use bcc_lattice::{columns, layers, rows};

/// How many vertices are Plus, Zero and Minus.
#[derive(Clone, Copy, Debug, PartialEq, Eq)]
pub struct Signs {
    pub plus: u64,
    pub zero: u64,
    pub minus: u64,
}

const NONE: Signs = Signs {
    plus: 0,
    zero: 0,
    minus: 0,
};

#[inline]
fn one(value: i64) -> Signs
    ensures value { result ≡ signs_by (one value) }
    ensures few { AreAtMost 1 result }
{
    Signs {
        plus: u64::from(value > 0),
        zero: u64::from(value == 0),
        minus: u64::from(value < 0),
    }
}

#[inline]
fn both(signs: Signs, others: Signs) -> Signs
    requires signs { AreAtMost (2 ^ 62) signs }
    requires others { AreAtMost (2 ^ 62) others }
    ensures { result ≡ both signs others }
{
    Signs {
        plus: signs.plus + others.plus,
        zero: signs.zero + others.zero,
        minus: signs.minus + others.minus,
    }
}

/// The signs of row `j` of an even layer, whose vertices are corners.
fn count_corner_row(field: &Field, h: u32, j: u32) -> Signs
    requires even { h % 2 ≡ 0 }
    ensures { result ≡ signs_by (row_count field.now h j) }
{
    let k = h / 2;
    let mut signs = NONE;
    for i in 0..columns(field.dims(), h) {
        signs = both(signs, one(8 * field.difference(i, j, k)));
    }
    signs
}

/// The signs of row `j` of an odd layer, whose vertices are centres of cubes.
fn count_centre_row(field: &Field, h: u32, j: u32) -> Signs
    requires odd { h % 2 ≡ 1 }
    requires layer { h / 2 ≤ field.now.dims.nz }
    requires row { j ≤ field.now.dims.ny }
    ensures { result ≡ signs_by (row_count field.now h j) }
{
    let k = h / 2;
    let mut signs = NONE;
    let mut near = field.side(0, j, k);
    for i in 0..columns(field.dims(), h) {
        let far = field.side(i + 1, j, k);
        signs = both(signs, one(near + far));
        near = far;
    }
    signs
}

fn count_row(field: &Field, h: u32, j: u32) -> Signs
    requires h { h < layers field.now.dims }
    requires j { j < row_len field.now.dims.ny h }
    ensures { result ≡ signs_by (row_count field.now h j) }
{
    if h % 2 == 0 {
        count_corner_row(field, h, j)
    } else {
        count_centre_row(field, h, j)
    }
}

fn count_layer(field: &Field, h: u32) -> Signs
    requires { h < layers field.now.dims }
    ensures { result ≡ signs_by (layer_count field.now h) }
{
    let mut signs = NONE;
    for j in 0..rows(field.dims(), h) {
        signs = both(signs, count_row(field, h, j));
    }
    signs
}

/// How many vertices of the lattice have each sign, before any of them is moved.
pub fn count_signs(field: &Field) -> Signs
    ensures plus { result.plus ≡ sign_count is_plus field.now }
    ensures zero { result.zero ≡ sign_count is_zero field.now }
    ensures minus { result.minus ≡ sign_count is_minus field.now }
{
    let mut signs = NONE;
    for h in 0..layers(field.dims()) {
        signs = both(signs, count_layer(field, h));
    }
    signs
}
