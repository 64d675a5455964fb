//! A test volume that is made from a number.
#![tactic(auto)]

ghost use Rattle.std.specs.Prelude.{◌≡◌, ◌≤◌, ◌≤ℤ◌, ◌<◌, ◌+◌, ◌-◌, ◌*◌, ◌/◌, ◌^◌, ◌++◌, All, IfOk, OnOk, pos};
ghost use Rattle.formats.specs.declared.Kind.TheVariants.{Uchar};
ghost use Rattle.phantom.specs.Noise.{next_state as state_after, state as state_of};
ghost use Rattle.phantom.specs.Phantom.{square, off_middle as middle_square, faded as faded_sample, phantom_samples, phantom_volume};
ghost use Rattle.phantom.specs.Rows.{row_samples};

use st_base::{Dims, Kind, NoMemory, Samples, Volume};
use std::alloc::{AllocError, Global};

// The next state of the noise.
fn next_state(state: u64) -> u64
    ensures { result ≡ state_after state }
{
    state
        .wrapping_mul(6364136223846793005)
        .wrapping_add(1442695040888963407)
}

// The square of a coordinate's distance from the middle of `n` samples, in half steps.
fn off_middle(n: u32, x: u32) -> u32
    requires size { n ≤ 128 }
    requires within { x < n }
    ensures value { result ≡ middle_square n x }
    ensures bound { result ≤ square (n - 1) }
    ensures small { result ≤ 16129 }
{
    let distance = (2 * x).abs_diff(n - 1);
    distance * distance
}

// How much a sample falls off where its distances from the middle have squares of the sum `r`.
fn fall(n: u32, r: u32) -> u32
    requires positive { 1 ≤ n }
    requires size { n ≤ 128 }
    requires within { r ≤ 3 * square (n - 1) }
    ensures value { result ≡ 192 * r / (3 * square (n - 1) + 1) }
    ensures bound { result ≤ 191 }
{
    let c = n - 1;
    192 * r / (3 * (c * c) + 1)
}

fn noise(state: u64) -> u32
    ensures value { result ≡ state / 2 ^ 60 }
    ensures bound { result ≤ 15 }
{
    (state / (1 << 60)) as u32
}

// The sample under a state of the noise.
fn faded(n: u32, r: u32, state: u64) -> i64
    requires positive { 1 ≤ n }
    requires size { n ≤ 128 }
    requires within { r ≤ 3 * square (n - 1) }
    ensures value { result ≡ faded_sample n r state }
    ensures low { pos 0 ≤ℤ result }
    ensures high { result ≤ℤ pos 255 }
{
    i64::from(255 - fall(n, r) - noise(state))
}

// The samples of a row at the end of others: `rest` is the sum of squares that its other two
// coordinates have, and `state` the noise before it and then behind it.
fn push_row(samples: &mut Samples, state: &mut u64, n: u32, rest: u32) -> Result<(), AllocError>
    requires kind { samples.old.kind ≡ Uchar }
    requires positive { 1 ≤ n }
    requires size { n ≤ 128 }
    requires within { rest ≤ 2 * square (n - 1) }
    ensures kind { samples.new.kind ≡ Uchar }
    ensures numbers { OnOk result (samples.new.numbers ≡ samples.old.numbers ++ row_samples n rest state.old n) }
    ensures state { OnOk result (state.new ≡ state_of state.old n) }
{
    for x in 0..n {
        *state = next_state(*state);
        samples.push(faded(n, off_middle(n, x) + rest, *state))?;
    }
    Ok(())
}

// All samples.
#[tactic(auto, unfolding(crate::specs::Phantom::phantom_samples))]
fn samples(alloc: Global, n: u32, seed: u64) -> Result<Samples, AllocError>
    requires positive { 1 ≤ n }
    requires size { n ≤ 128 }
    ensures kind { IfOk result (λ s. s.kind ≡ Uchar) }
    ensures numbers { IfOk result (λ s. s.numbers ≡ phantom_samples n seed) }
{
    let mut samples = Samples::with_capacity(alloc, Kind::Uchar, (n * n * n) as usize)?;
    let mut state = seed;
    for row in 0..n * n {
        let rest = off_middle(n, row % n) + off_middle(n, row / n);
        push_row(&mut samples, &mut state, n, rest)?;
    }
    Ok(samples)
}

/// The volume of `n` samples on each axis with this seed: a ball that falls off from its middle, less a
/// noise from 0 to 15. Samples are from 49 to 255.
///
/// ```rust
/// let volume = phantom(alloc, 1, 7)?;
/// assert_eq!(rt; volume.sample(0, 0, 0), 248);
/// ```
pub fn phantom(alloc: Global, n: u32, seed: u64) -> Result<Volume, NoMemory>
    requires positive { 1 ≤ n }
    requires size { n ≤ 128 }
    ensures { IfOk result (λ v. v ≡ phantom_volume n seed) }
{
    let dims = Dims {
        nx: n,
        ny: n,
        nz: n,
    };
    match samples(alloc, n, seed) {
        Ok(samples) => Ok(Volume::new(dims, 1, samples)),
        Err(_) => Err(NoMemory),
    }
}
