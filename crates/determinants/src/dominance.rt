ghost use Rattle.std.specs.Prelude.{◌<◌, ◌≤◌, ◌↔◌, ℕ, IsTrue, unsigned_abs};
ghost use Rattle.exact.specs.Dominance.{Above4, HasPositiveMinors, IsDominant, entry};

/// Whether in each row of a matrix the diagonal is above the sum of the sizes of the rest. Then all principal minors are above 0.
pub fn dominant(matrix: [[i32; 4]; 4]) -> bool
    requires { (i j : ℕ) → i < 4 → j < 4 → unsigned_abs (entry matrix i j) ≤ 16384 }
    ensures rows { IsTrue result ↔ IsDominant (entry matrix) }
    ensures minors { IsTrue result → HasPositiveMinors (entry matrix) }
{
    let [a, b, c, d] = matrix;
    let first = is_above(a[0], a[1], a[2], a[3]);
    let second = is_above(b[1], b[0], b[2], b[3]);
    let third = is_above(c[2], c[0], c[1], c[3]);
    let fourth = is_above(d[3], d[0], d[1], d[2]);
    first & second & third & fourth
}

// The first number is above the sum of the sizes of the others.
fn is_above(diagonal: i32, a: i32, b: i32, c: i32) -> bool
    requires a { unsigned_abs a ≤ 16384 }
    requires b { unsigned_abs b ≤ 16384 }
    requires c { unsigned_abs c ≤ 16384 }
    ensures { IsTrue result ↔ Above4 diagonal a b c }
{
    diagonal > a.abs() + b.abs() + c.abs()
}
