ghost use Rattle.std.specs.Prelude.{◌≡◌, ◌+◌, ◌*◌, ◌/◌, ◌%◌, ◌<◌, ◌≤◌, ◌^◌, ◌∷◌, ◌++◌, ℕ, length, decimal, unsigned_abs, OnOk, OnErr};
ghost use Rattle.mesh_texts.specs.Coordinates.{padded_decimal};
ghost use Rattle.mesh_texts.specs.Frames.{world_text as world_text_lem};

use crate::line::{Line, ROOM};
use st_base::NoMemory;

const TEN_9: u64 = 1_000_000_000;

const TEN_10: u64 = 10_000_000_000;

const TEN_12: u64 = 1_000_000_000_000;

const TEN_19: u128 = 10_000_000_000_000_000_000;

/// A number in units of 10^-31, cut into its whole part and twelve, nine and ten decimals.
#[derive(Clone, Copy, Debug, PartialEq, Eq)]
pub struct Parts {
    pub whole: u64,
    pub twelve: u64,
    pub nine: u64,
    pub ten: u64,
}

// The whole part and twelve decimals, and nineteen decimals.
fn halves(size: u128) -> (u64, u64)
    requires { size < 10 ^ 38 }
    ensures high { result.0 ≡ size / 10 ^ 19 }
    ensures low { result.1 ≡ size % 10 ^ 19 }
    ensures high_bound { result.0 < 10 ^ 19 }
    ensures low_bound { result.1 < 10 ^ 19 }
{
    let high = size / TEN_19;
    (high as u64, (size - high * TEN_19) as u64)
}

fn cut_decimals(size: u128) -> Parts
    requires { size < 10 ^ 38 }
    ensures whole { result.whole ≡ size / 10 ^ 31 }
    ensures decimals { (result.twelve * 10 ^ 9 + result.nine) * 10 ^ 10 + result.ten ≡ size % 10 ^ 31 }
    ensures twelve { result.twelve < 10 ^ 12 }
    ensures nine { result.nine < 10 ^ 9 }
    ensures ten { result.ten < 10 ^ 10 }
{
    let (high, low) = halves(size);
    Parts {
        whole: high / TEN_12,
        twelve: high % TEN_12,
        nine: low / TEN_10,
        ten: low % TEN_10,
    }
}

// Puts a number in front, in as many digits as `one` has zeros.
fn put_digits(line: &mut Line, one: u64, number: u64)
    requires one { one ≤ 10 ^ 18 }
    requires below { number < one }
    requires room { length line.old + 20 ≤ ROOM }
    ensures text { (k : ℕ) → 0 < k → one ≡ 10 ^ k → line.new ≡ padded_decimal k number ++ line.old }
    ensures length { (k : ℕ) → 0 < k → one ≡ 10 ^ k → length line.new ≡ length line.old + k }
{
    line.number(one + number);
    line.drop_first();
}

// Puts a point and 31 decimals in front.
fn put_decimals(line: &mut Line, parts: Parts)
    requires twelve { parts.twelve < 10 ^ 12 }
    requires nine { parts.nine < 10 ^ 9 }
    requires ten { parts.ten < 10 ^ 10 }
    requires room { length line.old + 52 ≤ ROOM }
    ensures text { line.new ≡ 46 ∷ (padded_decimal 31 ((parts.twelve * 10 ^ 9 + parts.nine) * 10 ^ 10 + parts.ten) ++ line.old) }
    ensures length { length line.new ≡ length line.old + 32 }
{
    put_digits(line, TEN_10, parts.ten);
    put_digits(line, TEN_9, parts.nine);
    put_digits(line, TEN_12, parts.twelve);
    line.byte(b'.');
}

/// Puts `value` times 10^-31 with 31 decimals in front.
pub fn put_world(line: &mut Line, value: i128)
    requires size { unsigned_abs value < 10 ^ 38 }
    requires room { length line.old + 53 ≤ ROOM }
    ensures text { line.new ≡ world_text_lem value ++ line.old }
    ensures length { length line.new ≤ length line.old + 43 }
{
    let parts = cut_decimals(value.unsigned_abs());
    put_decimals(line, parts);
    line.number(parts.whole);
    if value < 0 {
        line.byte(b'-');
    }
}

/// Appends `value` times 10^-31 with 31 decimals, which is exact.
pub fn world_text(out: &mut Vec<u8>, value: i128) -> Result<(), NoMemory>
    requires { unsigned_abs value < 10 ^ 38 }
    ensures text { OnOk result (out.new.items ≡ out.old.items ++ world_text_lem value) }
    ensures unchanged { OnErr result (out.new.items ≡ out.old.items) }
{
    let mut line = Line::new();
    put_world(&mut line, value);
    line.append_to(out)
}
