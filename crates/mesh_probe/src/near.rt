ghost use Rattle.std.specs.Prelude.{◌≤◌, ◌<◌, ◌+◌, ◌^◌, unsigned_abs};
ghost use Rattle.mesh_probe.specs.Near.{StartsAxis, StartsPair};

/// The first number at which an axis may reach a place.
pub fn axis_start(q: i64) -> u32
    requires small { unsigned_abs q < 2 ^ 40 }
    ensures start { StartsAxis q result }
    ensures small { result ≤ 2 ^ 28 + 1 }
{
    if q < -2048 {
        0
    } else {
        ((q + 2048) / 4096) as u32
    }
}

/// The first one of these that is as even or odd as `h`.
pub fn pair_start(q: i64, h: u32) -> u32
    requires small { unsigned_abs q < 2 ^ 40 }
    requires h { h ≤ 2 ^ 29 }
    ensures start { StartsPair q h result }
    ensures small { result ≤ 2 ^ 28 + 2 }
{
    let first = axis_start(q);
    first + (first + h) % 2
}
