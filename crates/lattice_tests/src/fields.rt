ghost use Rattle.std.specs.Prelude.{IfSome, length, ◌<◌, ◌^◌};
ghost use Rattle.definitions.specs.Lattice.{vertices};

use crate::rows::naturals;
use samples::Field;
use st_base::Dims;
use std::alloc::Global;

// The numbers of a row.
fn samples_of(alloc: Global, row: &str) -> Option<Vec<i64>> {
    let mut samples = Vec::new(alloc);
    for word in row.split_whitespace() {
        samples.push(word.parse().ok()?).ok()?;
    }
    Some(samples)
}

/// The field of a small image at the level 0.5: its sizes, and its samples.
pub fn field_of(alloc: Global, sizes: &str, samples: &str) -> Option<Field>
    ensures { IfSome result (λ f. length (vertices f.dims) < 2 ^ 32) }
{
    let [nx, ny, nz] = naturals::<3>(sizes)?;
    small_images::field_of(
        alloc,
        Dims { nx, ny, nz },
        &samples_of(alloc, samples)?,
        1,
        false,
    )
}
