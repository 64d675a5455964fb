ghost use Rattle.std.specs.Prelude.{◌≡◌, ◌≢◌, ◌≤◌, ◌≤ℤ◌, ◌+◌, ◌*◌, ◌/◌, ◌%◌, ◌^◌, ◌++◌, ◌==◌, ◌&&◌, List, ℕ, length, true, Err, IfOk, OnOk, IsErrOf, All};
ghost use Rattle.formats.specs.Samples.{bytes_per_sample as sample_bytes, sample_of_bytes};
ghost use Rattle.formats.specs.Volumes.{kept_size, least_of, greatest_of};
ghost use Rattle.st_base.specs.Causes.{Rose};
ghost use Rattle.st_base.specs.Frames.{OnlyInput};
ghost use Rattle.mha_read.specs.RawRows.{kept_of_row};
ghost use Rattle.mha_read.specs.Samples.{IsGrid, row_bytes, kept_rows, ReadsRows, ReadsSamples, FitsBehind, fault_behind};

use crate::filling::fill;
use sample_numbers::{bytes_per_sample, decode};
use st_base::{Desk, Failed, Kind, Samples};
use std::alloc::{AllocError, Global};

// How many bytes are read at once, at most.
const PART: usize = 65536;

/// How the raw samples stand, and every how many of them one is kept on each axis: the type, the
/// order of bytes, the samples in a row and the rows in a plane.
#[derive(Clone, Copy, Debug, PartialEq, Eq)]
pub struct Grid {
    pub kind: Kind,
    pub big: bool,
    pub width: usize,
    pub height: usize,
    pub step: usize,
}

/// Why samples were not read.
#[derive(Clone, Copy, Debug, PartialEq, Eq)]
pub enum SampleFault {
    Truncated { got: u64 },
    ReadFault,
    NoMemory,
}

// Sample n, from 0.
#[inline]
fn sample_at(bytes: &[u8], grid: &Grid, n: usize) -> i64
    requires { (n + 1) * sample_bytes grid.now.kind ≤ length bytes.now }
    ensures value { result ≡ sample_of_bytes grid.now.kind grid.now.big bytes.now n }
    ensures low { least_of grid.now.kind ≤ℤ result }
    ensures high { result ≤ℤ greatest_of grid.now.kind }
{
    let at = n * bytes_per_sample(grid.kind);
    decode(grid.kind, grid.big, &bytes[at..])
}

// The kept samples of a row, at the end of a list. The row's first is the sample of that number.
fn push_row(
    samples: &mut Samples,
    bytes: &[u8],
    grid: &Grid,
    first: usize,
) -> Result<(), AllocError>
    requires grid { IsGrid grid.now }
    requires kind { samples.old.kind ≡ grid.now.kind }
    requires within { (first + grid.now.width) * sample_bytes grid.now.kind ≤ length bytes.now }
    ensures kind { samples.new.kind ≡ samples.old.kind }
    ensures numbers { OnOk result (samples.new.numbers ≡ samples.old.numbers ++
        kept_of_row (sample_of_bytes grid.now.kind grid.now.big bytes.now) grid.now.width grid.now.step first) }
    ensures low { OnOk result (All (λ z. least_of grid.now.kind ≤ℤ z) samples.old.numbers →
        All (λ z. least_of grid.now.kind ≤ℤ z) samples.new.numbers) }
    ensures high { OnOk result (All (λ z. z ≤ℤ greatest_of grid.now.kind) samples.old.numbers →
        All (λ z. z ≤ℤ greatest_of grid.now.kind) samples.new.numbers) }
{
    for i in 0..grid.width.div_ceil(grid.step) {
        samples.push(sample_at(bytes, grid, first + i * grid.step))?;
    }
    Ok(())
}

fn keeps_row(grid: &Grid, row: usize) -> bool
    requires { IsGrid grid.now }
    ensures { result ≡ ((row / grid.now.height) % grid.now.step == 0 && (row % grid.now.height) % grid.now.step == 0) }
{
    (row / grid.height) % grid.step == 0 && (row % grid.height) % grid.step == 0
}

// The kept samples of rows, at the end of a list. Rows that are not kept are not decoded.
fn push_rows(
    samples: &mut Samples,
    bytes: &[u8],
    grid: &Grid,
    row: usize,
    rows: usize,
) -> Result<(), AllocError>
    requires grid { IsGrid grid.now }
    requires kind { samples.old.kind ≡ grid.now.kind }
    requires within { length bytes.now ≡ rows * row_bytes grid.now }
    requires bound { row + rows ≤ 2 ^ 26 }
    ensures kind { samples.new.kind ≡ samples.old.kind }
    ensures numbers { OnOk result (samples.new.numbers ≡ samples.old.numbers ++ kept_rows grid.now bytes.now row rows) }
    ensures low { OnOk result (All (λ z. least_of grid.now.kind ≤ℤ z) samples.old.numbers →
        All (λ z. least_of grid.now.kind ≤ℤ z) samples.new.numbers) }
    ensures high { OnOk result (All (λ z. z ≤ℤ greatest_of grid.now.kind) samples.old.numbers →
        All (λ z. z ≤ℤ greatest_of grid.now.kind) samples.new.numbers) }
{
    for i in 0..rows {
        if keeps_row(grid, row + i) {
            push_row(samples, bytes, grid, i * grid.width)?;
        }
    }
    Ok(())
}

// Reads rows through a buffer of their size.
fn read_rows<D: Desk>(
    desk: &mut D,
    samples: &mut Samples,
    buffer: &mut [u8],
    grid: &Grid,
    row: usize,
    rows: usize,
) -> Result<(), SampleFault>
    requires is_open { (D.input desk.old).is_open ≡ true }
    requires grid { IsGrid grid.now }
    requires kind { samples.old.kind ≡ grid.now.kind }
    requires room { length buffer.old ≡ rows * row_bytes grid.now }
    requires bound { row + rows ≤ 2 ^ 26 }
    ensures kind { samples.new.kind ≡ samples.old.kind }
    ensures rows { ReadsRows grid.now (D.input desk.old).left (D.input desk.new).left row rows
        samples.old.numbers samples.new.numbers result }
    ensures low { OnOk result (All (λ z. least_of grid.now.kind ≤ℤ z) samples.old.numbers →
        All (λ z. least_of grid.now.kind ≤ℤ z) samples.new.numbers) }
    ensures high { OnOk result (All (λ z. z ≤ℤ greatest_of grid.now.kind) samples.old.numbers →
        All (λ z. z ≤ℤ greatest_of grid.now.kind) samples.new.numbers) }
    ensures fault { IsErrOf result SampleFault.ReadFault →
        Rose (D.input desk.old).faults (D.input desk.new).faults }
    ensures none { result ≢ Err SampleFault.ReadFault →
        (D.input desk.new).faults ≡ (D.input desk.old).faults }
    ensures later { (D.input desk.old).faults ≤ (D.input desk.new).faults }
    ensures is_open { (D.input desk.new).is_open ≡ true }
    ensures apart { OnlyInput D.Desk desk.old desk.new }
{
    match fill(desk, buffer) {
        Ok(count) => {
            if count < buffer.len() {
                return Err(SampleFault::Truncated { got: count as u64 });
            }
        }
        Err(Failed) => return Err(SampleFault::ReadFault),
    }
    match push_rows(samples, buffer, grid, row, rows) {
        Ok(()) => Ok(()),
        Err(_) => Err(SampleFault::NoMemory),
    }
}

// The same fault where bytes were taken before.
fn behind(fault: SampleFault, before: u64) -> SampleFault
    requires { FitsBehind fault before }
    ensures { result ≡ fault_behind fault before }
{
    match fault {
        SampleFault::Truncated { got } => SampleFault::Truncated { got: before + got },
        SampleFault::ReadFault => SampleFault::ReadFault,
        SampleFault::NoMemory => SampleFault::NoMemory,
    }
}

// How many bytes the rows before a row have.
fn bytes_before(grid: &Grid, row: usize) -> u64
    requires grid { IsGrid grid.now }
    requires bound { row ≤ 2 ^ 26 }
    ensures { result ≡ row * row_bytes grid.now }
{
    (row * (grid.width * bytes_per_sample(grid.kind))) as u64
}

// The rows that are read at once where so many are left, and how many bytes they have.
fn next_part(grid: &Grid, left: usize) -> (usize, usize)
    requires grid { IsGrid grid.now }
    requires some { 1 ≤ left }
    ensures some { 1 ≤ result.0 }
    ensures within { result.0 ≤ left }
    ensures bytes { result.1 ≡ result.0 * row_bytes grid.now }
    ensures fits { result.1 ≤ 65536 }
{
    let row_len = grid.width * bytes_per_sample(grid.kind);
    let rows = left.min(PART / row_len);
    (rows, rows * row_len)
}

/// Reads the samples of all rows, and keeps some of them.
pub fn read_samples<D: Desk>(
    alloc: Global,
    desk: &mut D,
    grid: &Grid,
    rows: usize,
    kept: usize,
) -> Result<Samples, SampleFault>
    requires is_open { (D.input desk.old).is_open ≡ true }
    requires grid { IsGrid grid.now }
    requires bound { rows ≤ 2 ^ 26 }
    ensures samples { ReadsSamples grid.now (D.input desk.old).left (D.input desk.new).left rows result }
    ensures kind { IfOk result (λ v. v.kind ≡ grid.now.kind) }
    ensures low { IfOk result (λ v. All (λ z. least_of grid.now.kind ≤ℤ z) v.numbers) }
    ensures high { IfOk result (λ v. All (λ z. z ≤ℤ greatest_of grid.now.kind) v.numbers) }
    ensures fault { IsErrOf result SampleFault.ReadFault →
        Rose (D.input desk.old).faults (D.input desk.new).faults }
    ensures none { result ≢ Err SampleFault.ReadFault →
        (D.input desk.new).faults ≡ (D.input desk.old).faults }
    ensures later { (D.input desk.old).faults ≤ (D.input desk.new).faults }
    ensures is_open { (D.input desk.new).is_open ≡ true }
    ensures apart { OnlyInput D.Desk desk.old desk.new }
{
    let Ok(mut samples) = Samples::with_capacity(alloc, grid.kind, kept) else {
        return Err(SampleFault::NoMemory);
    };
    let mut buffer = [0u8; PART];
    let mut row = 0usize;
    for _ in 0..rows {
        if row >= rows {
            return Ok(samples);
        }
        let (part, len) = next_part(grid, rows - row);
        match read_rows(desk, &mut samples, &mut buffer[..len], grid, row, part) {
            Ok(()) => row += part,
            Err(fault) => return Err(behind(fault, bytes_before(grid, row))),
        }
    }
    Ok(samples)
}
