ghost use Rattle.std.specs.Prelude.{◌≡◌, ◌*◌, ◌<◌, ◌≤◌, ◌^◌, pos, unsigned_abs, ◌+ℤ◌, ◌*ℤ◌};
ghost use Rattle.formats.specs.Frames.{IsAxis};
ghost use Rattle.mesh_texts.specs.Frames.{world_value as world_value_lem};

use st_base::Axis;

/// 10^13, which takes units of 10^-18 to units of 10^-31.
const TEN_13: i128 = 10_000_000_000_000;

/// 10^13/8192.
const FIVE_13: i128 = 1_220_703_125;

fn stepped(step: u32, coordinate: i64) -> i64
    requires { unsigned_abs (pos step *ℤ coordinate) ≤ 8192 * 9000 }
    ensures { result ≡ pos step *ℤ coordinate }
{
    i64::from(step) * coordinate
}

fn spaced(axis: &Axis, stepped: i64) -> i128
    requires axis { IsAxis axis.now }
    requires near { unsigned_abs stepped ≤ 8192 * 9000 }
    ensures value { result ≡ axis.now.spacing *ℤ stepped }
    ensures bound { unsigned_abs result ≤ 10 ^ 21 * (8192 * 9000) }
{
    axis.spacing * i128::from(stepped)
}

// A number in units of 10^-18 in units of 10^-31.
fn finer(offset: i128) -> i128
    requires { unsigned_abs offset < 10 ^ 24 }
    ensures value { result ≡ offset *ℤ pos (10 ^ 13) }
    ensures bound { unsigned_abs result < 10 ^ 37 }
{
    offset * TEN_13
}

// A number in units of 10^-18 and of 1/8192 in units of 10^-31.
fn eighths(spaced: i128) -> i128
    requires { unsigned_abs spaced ≤ 10 ^ 21 * (8192 * 9000) }
    ensures value { result ≡ spaced *ℤ pos (5 ^ 13) }
    ensures bound { unsigned_abs result ≤ 9 * 10 ^ 37 }
{
    spaced * FIVE_13
}

fn sum(offset: i128, spaced: i128) -> i128
    requires offset { unsigned_abs offset < 10 ^ 37 }
    requires spaced { unsigned_abs spaced ≤ 9 * 10 ^ 37 }
    ensures value { result ≡ offset +ℤ spaced }
    ensures bound { unsigned_abs result < 10 ^ 38 }
{
    offset + spaced
}

/// The coordinate `offset + spacing * step * coordinate / 8192` in units of 10^-31, which is exact.
pub fn world_value(axis: &Axis, step: u32, coordinate: i64) -> i128
    requires axis { IsAxis axis.now }
    requires near { unsigned_abs (pos step *ℤ coordinate) ≤ 8192 * 9000 }
    ensures value { result ≡ world_value_lem axis.now step coordinate }
    ensures exact { pos 8192 *ℤ result ≡ pos (10 ^ 13) *ℤ (pos 8192 *ℤ axis.now.offset +ℤ axis.now.spacing *ℤ (pos step *ℤ coordinate)) }
    ensures bound { unsigned_abs result < 10 ^ 38 }
{
    let spaced = spaced(axis, stepped(step, coordinate));
    sum(finer(axis.offset), eighths(spaced))
}
