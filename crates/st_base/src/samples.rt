ghost use Rattle.std.specs.Prelude.{◌≡◌, ◌<◌, ◌≤◌, ◌≤ℤ◌, ◌^◌, [], ◌∷◌, ◌++◌, length, slice_index_or, pos, IfOk, OnOk, unsigned_abs};
ghost use Rattle.formats.specs.Volumes.{least_of, greatest_of};

use crate::NoMemory;
use formats::Kind;
use std::alloc::{AllocError, Global};
use std::marker::Model;

/// The least number of a type.
fn least(kind: Kind) -> i64
    ensures { result ≡ least_of kind }
{
    match kind {
        Kind::Uchar | Kind::Ushort | Kind::Uint => 0,
        Kind::Char => -0x80,
        Kind::Short => -0x8000,
        Kind::Int => -0x8000_0000,
    }
}

/// Samples of one type in 32 bits each. Contracts see the type and the list of the samples.
///
/// A word is how far its sample is above the least number of the type.
#[derive(Drop)]
pub struct Samples {
    kind: Kind,
    least: i64,
    words: Vec<u32>,
}

impl Model for Samples {
    ghost use Rattle.std.specs.Prelude.{◌≡◌};
    ghost use Rattle.formats.specs.Volumes.{least_of};
    ghost use Rattle.st_base.specs.Samples.{Samples as SamplesValue, samples_above};

    ghost Value = { SamplesValue };

    ghost view = { λ s. samples_above s.kind s.words.items };

    ghost invariant = { λ s. s.least ≡ least_of s.kind };
}

impl Samples {
    /// No samples of a type, with room for `count`.
    ///
    /// ```
    /// let mut samples = Samples::with_capacity(alloc, Kind::Uchar, 2)?;
    /// samples.push(0)?;
    /// samples.push(255)?;
    /// ```
    pub fn with_capacity(alloc: Global, kind: Kind, count: usize) -> Result<Samples, AllocError>
        ensures { IfOk result (λ samples. samples ≡ record { kind = kind; numbers = [] }) }
    {
        Ok(Samples {
            kind,
            least: least(kind),
            words: Vec::with_capacity(alloc, count)?,
        })
    }

    /// One more sample at the end.
    #[inline]
    pub fn push(&mut self, sample: i64) -> Result<(), AllocError>
        requires low { least_of self.old.kind ≤ℤ sample }
        requires high { sample ≤ℤ greatest_of self.old.kind }
        ensures kind { self.new.kind ≡ self.old.kind }
        ensures numbers { OnOk result (self.new.numbers ≡ self.old.numbers ++ sample ∷ []) }
    {
        self.words.push((sample - self.least) as u32)?;
        Ok(())
    }

    /// The type of the samples.
    pub fn kind(&self) -> Kind
        ensures { result ≡ self.now.kind }
    {
        self.kind
    }

    /// How many samples there are.
    pub fn len(&self) -> usize
        ensures { result ≡ length self.now.numbers }
    {
        self.words.len()
    }

    /// Sample `n`, from 0.
    #[inline]
    pub fn get(&self, n: usize) -> i64
        requires { n < length self.now.numbers }
        ensures value { result ≡ slice_index_or self.now.numbers n (pos 0) }
        ensures small { unsigned_abs result ≤ 2 ^ 32 }
    {
        self.least + i64::from(self.words[n])
    }

    /// The same samples once more.
    pub fn copy(&self, alloc: Global) -> Result<Samples, NoMemory>
        ensures { IfOk result (λ samples. samples ≡ self.now) }
    {
        match self.words.to_vec(alloc) {
            Ok(words) => Ok(Samples {
                kind: self.kind,
                least: self.least,
                words,
            }),
            Err(_) => Err(NoMemory),
        }
    }
}
