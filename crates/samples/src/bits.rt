ghost use Rattle.std.specs.Prelude.{◌≡◌, ◌⊎◌, ℕ, ◌+◌, ◌-◌, ◌<◌, ◌≤◌, true};
ghost use Rattle.std.specs.Int.{bit_at};

/// The word with bit `b` set, too, if `set` says so.
#[inline(always)]
pub fn with_bit(word: u64, set: bool, b: u32) -> u64
    requires { b < 64 }
    ensures { (c : ℕ) → bit_at result c ≡ 1 → (bit_at word c ≡ 1) ⊎ ((c ≡ b) × (set ≡ true)) }
{
    word | u64::from(set) << b
}

/// A word with the bits below `n`.
#[inline(always)]
pub fn ones_below(n: u32) -> u64
    ensures below { (b : ℕ) → bit_at result b ≡ 1 → b < n }
    ensures each { (b : ℕ) → b < n → b < 64 → bit_at result b ≡ 1 }
{
    if n < 64 { (1 << n) - 1 } else { u64::MAX }
}

/// Whether the word has each bit of another.
#[inline(always)]
pub fn has_all(word: u64, ones: u64) -> bool
    ensures { result ≡ true → (b : ℕ) → bit_at ones b ≡ 1 → bit_at word b ≡ 1 }
{
    word & ones == ones
}

#[inline(always)]
fn moved_up(word: u64, by: u32) -> u64
    requires { by < 64 }
    ensures low { (b : ℕ) → bit_at result b ≡ 1 → by ≤ b }
    ensures bits { (b : ℕ) → bit_at result b ≡ 1 → bit_at word (b - by) ≡ 1 }
{
    word << by
}

/// The bits of the word moved up by `before`, without those from `end` on.
#[inline(always)]
pub fn moved_within(word: u64, before: u32, end: u32) -> u64
    requires { before < 64 }
    ensures low { (b : ℕ) → bit_at result b ≡ 1 → before ≤ b }
    ensures high { (b : ℕ) → bit_at result b ≡ 1 → b < end }
    ensures bits { (b : ℕ) → bit_at result b ≡ 1 → bit_at word (b - before) ≡ 1 }
{
    moved_up(word, before) & ones_below(end)
}

/// The bits of the word moved up by `before`, with all below it and all from `end` on.
#[inline(always)]
pub fn moved_between(word: u64, before: u32, end: u32) -> u64
    requires { before < 64 }
    ensures { (b : ℕ) → bit_at result b ≡ 1 → before ≤ b → b < end → bit_at word (b - before) ≡ 1 }
{
    moved_up(word, before) | ones_below(before) | !ones_below(end)
}

/// 64 bits of two words, from bit `at` of the lower one on.
#[inline(always)]
pub fn joined(low: u64, high: u64, at: u32) -> u64
    requires { at < 64 }
    ensures { (b : ℕ) → bit_at result b ≡ 1 → (bit_at low (at + b) ≡ 1) ⊎ ((64 ≤ at + b) × (bit_at high (at + b - 64) ≡ 1)) }
{
    low >> at | moved_up(moved_up(high, 1), 63 - at)
}
