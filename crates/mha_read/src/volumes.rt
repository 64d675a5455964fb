ghost use Rattle.std.specs.Prelude.{◌≡◌, ◌≢◌, ◌<◌, ◌≤◌, ◌+◌, ◌*◌, ◌^◌, List, ℕ, drop, length, slice_index, true, false, Some, Ok, Err, IfOk, OnOk, IsErrOf, if◌then◌else◌, nat_lt};
ghost use Rattle.std.specs.List.{list_any};
ghost use Rattle.definitions.specs.Lattice.{dims, padded_product, IsDims};
ghost use Rattle.formats.specs.Volumes.{AreLimits, is_too_large, kept_dims, kept_size, wanted_bytes, volume_answer};
ghost use Rattle.st_base.specs.Causes.{Rose};
ghost use Rattle.st_base.specs.Frames.{OnlyInput};
ghost use Rattle.mha_read.specs.RawSizes.{AreRawSizes};
ghost use Rattle.mha_read.specs.VolumeTold.{FollowsHead, VolumeTold, grid_in};

use crate::samples::{Grid, SampleFault, read_samples};
use sample_numbers::bytes_per_sample;
use st_base::{Desk, Dims, Head, Limits, Volume};
use std::alloc::Global;
use thiserror::Error;

/// Why there is no volume.
#[derive(Clone, Copy, Debug, PartialEq, Eq, Error)]
pub enum VolFault {
    /// A raw size or the padded product is above its limit. `padded` is that product.
    #[error("the volume is too large: {padded} padded samples")]
    TooLarge { padded: u128 },
    /// The input ends after `got` of `wanted` bytes.
    #[error("the input ends after {got} of {wanted} bytes")]
    Truncated { got: u64, wanted: u64 },
    /// The input could not be read.
    #[error("the input could not be read")]
    ReadFault,
    /// Memory ran out.
    #[error("memory ran out")]
    NoMemory,
}

// How many of n samples are kept where every step-th is.
fn kept(n: u32, step: u32) -> u32
    requires step { 1 ≤ step }
    ensures value { result ≡ kept_size step n }
    ensures bound { result ≤ n }
    ensures positive { 1 ≤ n → 1 ≤ result }
{
    n.div_ceil(step)
}

fn kept_sizes(raw: &[u32; 3], step: u32) -> Dims
    requires raw { AreRawSizes raw.now }
    requires step { 1 ≤ step }
    ensures value { result ≡ dims
        (kept_size step (slice_index raw.now 0))
        (kept_size step (slice_index raw.now 1))
        (kept_size step (slice_index raw.now 2)) }
    ensures x { (1 ≤ result.nx) × (result.nx ≤ slice_index raw.now 0) }
    ensures y { (1 ≤ result.ny) × (result.ny ≤ slice_index raw.now 1) }
    ensures z { (1 ≤ result.nz) × (result.nz ≤ slice_index raw.now 2) }
{
    Dims {
        nx: kept(raw[0], step),
        ny: kept(raw[1], step),
        nz: kept(raw[2], step),
    }
}

fn padded_plane(nx: u32, ny: u32) -> u64
    requires x { nx ≤ 999999999 }
    requires y { ny ≤ 999999999 }
    ensures value { result ≡ (nx + 2) * (ny + 2) }
    ensures bound { result ≤ 1000000001 * 1000000001 }
{
    u64::from(nx + 2) * u64::from(ny + 2)
}

fn padded(dims: Dims) -> u128
    requires x { dims.nx ≤ 999999999 }
    requires y { dims.ny ≤ 999999999 }
    requires z { dims.nz ≤ 999999999 }
    ensures { result ≡ padded_product dims }
{
    u128::from(padded_plane(dims.nx, dims.ny)) * u128::from(dims.nz + 2)
}

fn is_large(raw: &[u32; 3], limit: u32) -> bool
    ensures { result ≡ list_any (λ n. nat_lt limit n) raw.now }
{
    raw.iter().any(|n| *n > limit)
}

// The kept sizes where the volume is within the limits, and else the padded product.
fn allowed_sizes(head: &Head, step: u32, limits: &Limits) -> Result<Dims, u128>
    requires sizes { AreRawSizes head.now.raw }
    requires step { 1 ≤ step }
    requires limits { AreLimits limits.now }
    ensures value { result ≡ (if is_too_large limits.now head.now step
        then Err (padded_product (kept_dims head.now step)) else Ok (kept_dims head.now step)) }
    ensures sizes { IfOk result IsDims }
    ensures raw { OnOk result ((slice_index head.now.raw 0 ≤ 8192) ×
        (slice_index head.now.raw 1 ≤ 8192) × (slice_index head.now.raw 2 ≤ 8192)) }
{
    let sizes = kept_sizes(&head.raw, step);
    let padded = padded(sizes);
    if is_large(&head.raw, limits.dimension) || padded > u128::from(limits.padded) {
        Err(padded)
    } else {
        Ok(sizes)
    }
}

// The number of bytes of all raw samples.
fn byte_count(head: &Head) -> u64
    requires three { length head.now.raw ≡ 3 }
    requires x { slice_index head.now.raw 0 ≤ 8192 }
    requires y { slice_index head.now.raw 1 ≤ 8192 }
    requires z { slice_index head.now.raw 2 ≤ 8192 }
    ensures { result ≡ wanted_bytes head.now }
{
    let samples = u64::from(head.raw[0]) * u64::from(head.raw[1]) * u64::from(head.raw[2]);
    samples * bytes_per_sample(head.kind) as u64
}

// The number of raw rows.
fn row_count(head: &Head) -> usize
    requires three { length head.now.raw ≡ 3 }
    requires y { slice_index head.now.raw 1 ≤ 8192 }
    requires z { slice_index head.now.raw 2 ≤ 8192 }
    ensures value { result ≡ slice_index head.now.raw 1 * slice_index head.now.raw 2 }
    ensures bound { result ≤ 2 ^ 26 }
{
    head.raw[1] as usize * head.raw[2] as usize
}

fn grid_of(head: &Head, step: u32) -> Grid
    requires three { length head.now.raw ≡ 3 }
    ensures { result ≡ grid_in head.now step }
{
    Grid {
        kind: head.kind,
        big: head.big,
        width: head.raw[0] as usize,
        height: head.raw[1] as usize,
        step: step as usize,
    }
}

// The number of kept samples.
fn sample_count(sizes: Dims) -> usize
    requires { IsDims sizes }
    ensures { result ≡ sizes.nx * sizes.ny * sizes.nz }
{
    sizes.nx as usize * sizes.ny as usize * sizes.nz as usize
}

/// Reads the samples behind a head, and nothing after them, and keeps every `step`-th on each axis.
///
/// TooLarge is answered exactly where a raw size or the padded product is above its limit, with that
/// product; nothing is read then. Truncated is answered where the input ends after `got < wanted`
/// bytes. ReadFault is answered where a read failed.
pub fn read_volume<D: Desk>(
    alloc: Global,
    desk: &mut D,
    head: &Head,
    step: u32,
    limits: &Limits,
) -> Result<Volume, VolFault>
    requires is_open { (D.input desk.old).is_open ≡ true }
    requires sizes { AreRawSizes head.now.raw }
    requires step { 1 ≤ step }
    requires step_bound { step ≤ 64 }
    requires limits { AreLimits limits.now }
    ensures follows { FollowsHead limits.now head.now step result }
    ensures told { (text : List ℕ) (len : ℕ) → (D.input desk.old).left ≡ Some (drop len text) →
        VolumeTold (volume_answer limits.now text (record { head = head.now; len = len }) step)
        (wanted_bytes head.now) result (drop len text) (D.input desk.new).left }
    ensures unread { is_too_large limits.now head.now step ≡ true →
        D.input desk.new ≡ D.input desk.old }
    ensures fault { IsErrOf result VolFault.ReadFault →
        Rose (D.input desk.old).faults (D.input desk.new).faults }
    ensures none { result ≢ Err VolFault.ReadFault →
        (D.input desk.new).faults ≡ (D.input desk.old).faults }
    ensures later { (D.input desk.old).faults ≤ (D.input desk.new).faults }
    ensures is_open { (D.input desk.new).is_open ≡ true }
    ensures apart { OnlyInput D.Desk desk.old desk.new }
{
    let sizes = match allowed_sizes(head, step, limits) {
        Ok(sizes) => sizes,
        Err(padded) => return Err(VolFault::TooLarge { padded }),
    };
    let grid = grid_of(head, step);
    match read_samples(alloc, desk, &grid, row_count(head), sample_count(sizes)) {
        Ok(samples) => Ok(Volume::new(sizes, step, samples)),
        Err(fault) => match fault {
            SampleFault::Truncated { got } => {
                let wanted = byte_count(head);
                Err(VolFault::Truncated { got, wanted })
            }
            SampleFault::ReadFault => Err(VolFault::ReadFault),
            SampleFault::NoMemory => Err(VolFault::NoMemory),
        },
    }
}
