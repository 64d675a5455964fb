//! Fields of small images, and the mesh of one sample, for tests.
#![tactic(auto)]

mod files;

ghost use Rattle.std.specs.Prelude.{◌≡◌, ◌≤◌, ◌≤ℤ◌, ◌<◌, ◌^◌, All, IfSome, length, negsuc, pos};
ghost use Rattle.std.specs.Bool.{OnTrue};
ghost use Rattle.definitions.specs.Lattice.{vertices};
ghost use Rattle.formats.specs.declared.Kind.TheVariants.{Short};

use bcc_lattice::vertex_count;
pub use files::{
    ONE_SAMPLE_ELE_FILE, ONE_SAMPLE_ELE_FILE_FROM_ONE, ONE_SAMPLE_NODE_FILE,
    ONE_SAMPLE_NODE_FILE_FROM_ONE, ONE_SAMPLE_TETS,
};
use phantom::phantom;
use samples::{Field, Level};
use st_base::{Dims, Kind, Samples, Volume};
use std::alloc::Global;

fn are_short(numbers: &[i64]) -> bool
    ensures low { OnTrue result (All (λ z. negsuc 32767 ≤ℤ z) numbers.now) }
    ensures high { OnTrue result (All (λ z. z ≤ℤ pos 32767) numbers.now) }
{
    numbers.iter().all(|z| -32768 <= *z && *z <= 32767)
}

fn short_samples(alloc: Global, numbers: &[i64]) -> Option<Samples>
    requires low { All (λ z. negsuc 32767 ≤ℤ z) numbers.now }
    requires high { All (λ z. z ≤ℤ pos 32767) numbers.now }
    ensures kind { IfSome result (λ s. s.kind ≡ Short) }
    ensures numbers { IfSome result (λ s. s.numbers ≡ numbers.now) }
{
    let mut samples = Samples::with_capacity(alloc, Kind::Short, numbers.len()).ok()?;
    for number in numbers {
        samples.push(*number).ok()?;
    }
    Some(samples)
}

/// The field of an image of at most nine samples on each axis, whose samples are of 16 bits, at a
/// level that is given as its double. None where the image is another one, or memory runs out.
///
/// ```
/// let dims = Dims { nx: 2, ny: 1, nz: 1 };
/// let field = field_of(alloc, dims, &[1, 0], 1, false)?;
/// ```
pub fn field_of(
    alloc: Global,
    dims: Dims,
    numbers: &[i64],
    twice: i64,
    below: bool,
) -> Option<Field>
    ensures sizes { IfSome result (λ f. f.dims ≡ dims) }
    ensures few { IfSome result (λ f. length (vertices f.dims) < 2 ^ 32) }
{
    let Dims { nx, ny, nz } = dims;
    if nx < 1 || nx > 9 || ny < 1 || ny > 9 || nz < 1 || nz > 9 {
        return None;
    }
    if numbers.len() != (nx * ny * nz) as usize || !are_short(numbers) {
        return None;
    }
    let volume = Volume::new(dims, 1, short_samples(alloc, numbers)?);
    let field = Field::of_volume(alloc, volume, Level::new(twice)?, below).ok()?;
    let _ = vertex_count(field.dims());
    Some(field)
}

/// One sample of 1, at a level of a half: five layers of 9, 4, 9, 4 and 9 vertices.
pub fn one_sample(alloc: Global) -> Option<Field>
    ensures { IfSome result (λ f. length (vertices f.dims) < 2 ^ 32) }
{
    let dims = Dims {
        nx: 1,
        ny: 1,
        nz: 1,
    };
    field_of(alloc, dims, &[1], 1, false)
}

/// The phantom of `n` samples on each axis with seed 7, at a level of 199.5.
pub fn phantom_field(alloc: Global, n: u32) -> Option<Field>
    requires positive { 1 ≤ n }
    requires size { n ≤ 128 }
    ensures { IfSome result (λ f. length (vertices f.dims) < 2 ^ 32) }
{
    let volume = phantom(alloc, n, 7).ok()?;
    let field = Field::of_volume(alloc, volume, Level::new(399)?, false).ok()?;
    let _ = vertex_count(field.dims());
    Some(field)
}
