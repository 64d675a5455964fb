ghost use Rattle.std.specs.Prelude.{◌≡◌, ◌<◌};
ghost use Rattle.definitions.specs.Values.{number_at};
ghost use Rattle.formats.specs.Volumes.{IsVolume};

use crate::samples::Samples;
use definitions::Dims;
use formats::Kind;
use std::marker::Model;

/// An image: the kept sizes, the step with which they were kept, the type of the samples, and the
/// samples with x fastest, then y, then z.
///
/// The padded product `(nx + 2) * (ny + 2) * (nz + 2)` is at most 67,108,864, there are as many
/// samples as places, each in its type's range, and the step is 1 to 64.
#[derive(Drop)]
pub struct Volume {
    dims: Dims,
    step: u32,
    samples: Samples,
}

impl Model for Volume {
    ghost use Rattle.formats.specs.Volumes.{Volume as VolumeValue, IsVolume};

    ghost Value = { VolumeValue };

    ghost view = { λ v. record { dims = v.dims; step = v.step; kind = v.samples.kind; samples = v.samples.numbers } };

    ghost invariant = { λ v. IsVolume (record { dims = v.dims; step = v.step; kind = v.samples.kind; samples = v.samples.numbers }) };
}

impl Volume {
    /// The volume of these samples.
    ///
    /// ```
    /// let dims = Dims { nx: 2, ny: 1, nz: 1 };
    /// let volume = Volume::new(dims, 1, samples);
    /// let second = volume.sample(1, 0, 0);
    /// ```
    pub fn new(dims: Dims, step: u32, samples: Samples) -> Volume
        requires { IsVolume (record { dims = dims; step = step; kind = samples.kind; samples = samples.numbers }) }
        ensures { result ≡ record { dims = dims; step = step; kind = samples.kind; samples = samples.numbers } }
    {
        Volume {
            dims,
            step,
            samples,
        }
    }

    /// The kept sizes.
    pub fn dims(&self) -> Dims
        ensures { result ≡ self.now.dims }
    {
        self.dims
    }

    /// Every how many raw samples one was kept, on each axis.
    pub fn step(&self) -> u32
        ensures { result ≡ self.now.step }
    {
        self.step
    }

    /// The type of the samples.
    pub fn kind(&self) -> Kind
        ensures { result ≡ self.now.kind }
    {
        self.samples.kind()
    }

    /// All samples, x fastest.
    pub fn samples(&self) -> &Samples
        ensures kind { result.now.kind ≡ self.now.kind }
        ensures numbers { result.now.numbers ≡ self.now.samples }
        ensures volume { IsVolume self.now }
    {
        &self.samples
    }

    /// The samples alone, in the memory that the volume had.
    pub fn into_samples(self) -> Samples
        ensures kind { result.kind ≡ self.kind }
        ensures numbers { result.numbers ≡ self.samples }
        ensures volume { IsVolume self }
    {
        self.samples
    }

    /// The sample at a place in the image.
    pub fn sample(&self, i: u32, j: u32, k: u32) -> i64
        requires x { i < self.now.dims.nx }
        requires y { j < self.now.dims.ny }
        requires z { k < self.now.dims.nz }
        ensures { result ≡ number_at self.now.dims self.now.samples i j k }
    {
        let row = k as usize * self.dims.ny as usize + j as usize;
        self.samples.get(row * self.dims.nx as usize + i as usize)
    }
}
