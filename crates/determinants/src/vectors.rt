ghost use Rattle.std.specs.Prelude.{◌≡◌, ◌≤◌, ◌^◌, ◌*ℤ◌, ◌-ℤ◌, unsigned_abs};
ghost use Rattle.definitions.specs.Vectors.{minus, dot, cross};
ghost use Rattle.bcc_lattice.specs.Bounds.{IsSmallPlace};

use definitions::Place;

/// The vector from `p` to `q`.
pub fn minus(q: Place, p: Place) -> Place
    requires { IsSmallPlace 12286 (minus q p) }
    ensures { result ≡ minus q p }
{
    Place {
        x: less(q.x, p.x),
        y: less(q.y, p.y),
        z: less(q.z, p.z),
    }
}

fn less(a: i64, b: i64) -> i64
    requires { unsigned_abs (a -ℤ b) ≤ 12286 }
    ensures { result ≡ a -ℤ b }
{
    a - b
}

fn times(a: i64, b: i64) -> i64
    requires a { unsigned_abs a ≤ 301891592 }
    requires b { unsigned_abs b ≤ 301891592 }
    ensures { result ≡ a *ℤ b }
{
    a * b
}

/// The cross product.
pub fn cross(p: Place, q: Place) -> Place
    requires p { IsSmallPlace 12286 p }
    requires q { IsSmallPlace 12286 q }
    ensures value { result ≡ cross p q }
    ensures small { IsSmallPlace 301891592 result }
{
    Place {
        x: minor(p.y, p.z, q.y, q.z),
        y: minor(p.z, p.x, q.z, q.x),
        z: minor(p.x, p.y, q.x, q.y),
    }
}

// The determinant of two rows.
fn minor(a: i64, b: i64, c: i64, d: i64) -> i64
    requires a { unsigned_abs a ≤ 12286 }
    requires b { unsigned_abs b ≤ 12286 }
    requires c { unsigned_abs c ≤ 12286 }
    requires d { unsigned_abs d ≤ 12286 }
    ensures value { result ≡ (a *ℤ d) -ℤ (b *ℤ c) }
    ensures small { unsigned_abs result ≤ 301891592 }
{
    times(a, d) - times(b, c)
}

/// The dot product.
pub fn dot(p: Place, q: Place) -> i64
    requires p { IsSmallPlace 301891592 p }
    requires q { IsSmallPlace 301891592 q }
    ensures value { result ≡ dot p q }
    ensures small { unsigned_abs result ≤ 2 ^ 58 }
{
    times(p.x, q.x) + times(p.y, q.y) + times(p.z, q.z)
}
