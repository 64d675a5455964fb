ghost use Rattle.std.specs.Prelude.{◌≡◌, ◌⊎◌, ℕ, ◌+◌, ◌-◌, ◌*◌, ◌/◌, ◌^◌, ◌<◌, ◌≤◌, ℤ, List, length, map, slice_index_or, unsigned_abs, pos, IfOk, IfSome};
ghost use Rattle.definitions.specs.declared.Sign.{Sign as SignValue};
ghost use Rattle.definitions.specs.declared.Sign.TheVariants.{Minus};
ghost use Rattle.definitions.specs.Values.{difference, sign_of};
ghost use Rattle.samples.specs.SignWords.{IsTold, TellNumbers, AreWordsOf, none_told};

use crate::bits::{has_all, joined, moved_between, moved_within, ones_below, with_bit};
use crate::field::difference;
use crate::level::Level;
use crate::sign::has_sign;
use st_base::{NoMemory, Samples, Sign};
use std::alloc::Global;

/// The signs of up to 64 things in a row: thing `b` has a sign if bit `b` of its word is set. A bit that is not set
/// says nothing.
#[derive(Clone, Copy)]
pub struct SignWords {
    pub plus: u64,
    pub zero: u64,
    pub minus: u64,
}

impl SignWords {
    /// What both tell.
    #[inline(always)]
    pub fn and(self, other: SignWords) -> SignWords
        ensures own { (s : SignValue) (b : ℕ) → IsTold result s b → IsTold self s b }
        ensures other { (s : SignValue) (b : ℕ) → IsTold result s b → IsTold other s b }
    {
        SignWords {
            plus: self.plus & other.plus,
            zero: self.zero & other.zero,
            minus: self.minus & other.minus,
        }
    }

    /// The sign that thing `b` is told to have.
    #[inline(always)]
    pub fn sign_at(self, b: u32) -> Option<Sign>
        requires { b < 64 }
        ensures { IfSome result (λ s. IsTold self s b) }
    {
        if self.minus >> b & 1 == 1 {
            Some(Sign::Minus)
        } else if self.plus >> b & 1 == 1 {
            Some(Sign::Plus)
        } else if self.zero >> b & 1 == 1 {
            Some(Sign::Zero)
        } else {
            None
        }
    }

    /// The sign that each of the first `n` things is told to have.
    #[inline(always)]
    pub fn first_sign(self, n: u32) -> Option<Sign>
        requires { n ≤ 64 }
        ensures { IfSome result (λ s. (b : ℕ) → b < n → IsTold self s b) }
    {
        let ones = ones_below(n);
        if has_all(self.minus, ones) {
            Some(Sign::Minus)
        } else if has_all(self.plus, ones) {
            Some(Sign::Plus)
        } else if has_all(self.zero, ones) {
            Some(Sign::Zero)
        } else {
            None
        }
    }

    /// These with the sign of a difference, of thing `b`.
    #[inline(always)]
    fn with(self, difference: i64, b: u32) -> SignWords
        requires { b < 64 }
        ensures { (s : SignValue) (c : ℕ) → IsTold result s c → IsTold self s c ⊎ ((c ≡ b) × (sign_of difference ≡ s)) }
    {
        SignWords {
            plus: with_bit(self.plus, has_sign(difference, Sign::Plus), b),
            zero: with_bit(self.zero, has_sign(difference, Sign::Zero), b),
            minus: with_bit(self.minus, has_sign(difference, Sign::Minus), b),
        }
    }

    /// Those of samples as those of corners: the first `before` things and those from `end` on are corners of the
    /// padding.
    #[inline(always)]
    pub fn padded(self, before: u32, end: u32) -> SignWords
        requires { before < 64 }
        ensures inside { (s : SignValue) (b : ℕ) → before ≤ b → b < end → IsTold result s b → IsTold self s (b - before) }
        ensures padding { (s : SignValue) (b : ℕ) → (b < before) ⊎ (end ≤ b) → IsTold result s b → s ≡ Minus }
    {
        SignWords {
            plus: moved_within(self.plus, before, end),
            zero: moved_within(self.zero, before, end),
            minus: moved_between(self.minus, before, end),
        }
    }
}

#[inline(always)]
fn difference_at(samples: &Samples, level: Level, below: bool, n: usize) -> i64
    requires { n < length samples.now.numbers }
    ensures value { result ≡ slice_index_or (map (difference level below) samples.now.numbers) n (pos 0) }
    ensures small { unsigned_abs result < 2 ^ 34 }
{
    difference(level, below, samples.get(n))
}

/// The signs of the differences of 64 samples from `first` on.
fn words_from(samples: &Samples, level: Level, below: bool, first: usize) -> SignWords
    requires { first + 64 < 2 ^ 64 }
    ensures { TellNumbers (map (difference level below) samples.now.numbers) first result }
{
    let mut words = SignWords {
        plus: 0,
        zero: 0,
        minus: 0,
    };
    for n in first..samples.len().min(first + 64) {
        words = words.with(difference_at(samples, level, below, n), (n - first) as u32);
    }
    words
}

fn fill(samples: &Samples, level: Level, below: bool, out: &mut [SignWords])
    requires { length out.old ≤ 2 ^ 32 }
    ensures { (q : ℕ) → q < length out.old → TellNumbers (map (difference level below) samples.now.numbers) (64 * q) (slice_index_or out.new q none_told) }
{
    for q in 0..out.len() {
        out[q] = words_from(samples, level, below, 64 * q);
    }
}

/// The signs of the differences of all samples, 64 in each element.
pub fn words_of(
    alloc: Global,
    samples: &Samples,
    level: Level,
    below: bool,
) -> Result<Vec<SignWords>, NoMemory>
    requires { length samples.now.numbers ≤ 2 ^ 32 }
    ensures { IfOk result (λ words. AreWordsOf (map (difference level below) samples.now.numbers) words.items) }
{
    let none = SignWords {
        plus: 0,
        zero: 0,
        minus: 0,
    };
    let Ok(mut words) = vec![in alloc; none; samples.len() / 64 + 2] else {
        return Err(NoMemory);
    };
    fill(samples, level, below, words.as_mut_slice());
    Ok(words)
}

/// The signs of 64 numbers from `first` on.
#[inline(always)]
pub fn signs_from(words: &[SignWords], first: usize) -> SignWords
    requires { first / 64 + 1 < length words.now }
    ensures { (zs : List ℤ) → AreWordsOf zs words.now → TellNumbers zs first result }
{
    let low = words[first / 64];
    let high = words[first / 64 + 1];
    let at = (first % 64) as u32;
    SignWords {
        plus: joined(low.plus, high.plus, at),
        zero: joined(low.zero, high.zero, at),
        minus: joined(low.minus, high.minus, at),
    }
}
