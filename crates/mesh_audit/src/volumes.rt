ghost use Rattle.std.specs.Prelude.{◌≡◌, ◌<◌, ◌≤◌, ◌^◌, ◌+◌, ◌*ℤ◌, ◌-ℤ◌, ◌+ℤ◌, unsigned_abs, length, All, not, IfSome};
ghost use Rattle.std.specs.List.{position};
ghost use Rattle.definitions.specs.Vectors.{minus, det_of, place_at};
ghost use Rattle.mesh_files.specs.Files.{IsSmallPlace};
ghost use Rattle.mesh_audit.specs.Bounds.{IsWithin};
ghost use Rattle.mesh_files.specs.Verdicts.{is_above_zero, is_positive as is_positive_tet};

use st_base::Place;

fn less(a: i64, b: i64) -> i64
    requires a { unsigned_abs a < 2 ^ 33 }
    requires b { unsigned_abs b < 2 ^ 33 }
    ensures value { result ≡ a -ℤ b }
    ensures small { unsigned_abs result ≤ 2 ^ 34 }
{
    a - b
}

// The vector from `p` to `q`.
fn minus(q: Place, p: Place) -> Place
    requires q { IsSmallPlace q }
    requires p { IsSmallPlace p }
    ensures value { result ≡ minus q p }
    ensures small { IsWithin (2 ^ 34) result }
{
    Place {
        x: less(q.x, p.x),
        y: less(q.y, p.y),
        z: less(q.z, p.z),
    }
}

fn times(a: i64, b: i64) -> i128
    requires a { unsigned_abs a ≤ 2 ^ 34 }
    requires b { unsigned_abs b ≤ 2 ^ 34 }
    ensures value { result ≡ a *ℤ b }
    ensures small { unsigned_abs result ≤ 2 ^ 68 }
{
    i128::from(a) * i128::from(b)
}

// The determinant of two rows.
fn minor(a: i64, b: i64, c: i64, d: i64) -> i128
    requires a { unsigned_abs a ≤ 2 ^ 34 }
    requires b { unsigned_abs b ≤ 2 ^ 34 }
    requires c { unsigned_abs c ≤ 2 ^ 34 }
    requires d { unsigned_abs d ≤ 2 ^ 34 }
    ensures value { result ≡ (a *ℤ d) -ℤ (b *ℤ c) }
    ensures small { unsigned_abs result ≤ 2 ^ 69 }
{
    difference(times(a, d), times(b, c))
}

fn difference(a: i128, b: i128) -> i128
    requires a { unsigned_abs a ≤ 2 ^ 68 }
    requires b { unsigned_abs b ≤ 2 ^ 68 }
    ensures value { result ≡ a -ℤ b }
    ensures small { unsigned_abs result ≤ 2 ^ 69 }
{
    a - b
}

fn term(a: i64, minor: i128) -> i128
    requires a { unsigned_abs a ≤ 2 ^ 34 }
    requires minor { unsigned_abs minor ≤ 2 ^ 69 }
    ensures value { result ≡ a *ℤ minor }
    ensures small { unsigned_abs result ≤ 2 ^ 103 }
{
    i128::from(a) * minor
}

fn sum(a: i128, b: i128) -> i128
    requires a { unsigned_abs a ≤ 2 ^ 104 }
    requires b { unsigned_abs b ≤ 2 ^ 104 }
    ensures value { result ≡ a +ℤ b }
    ensures small { unsigned_abs result ≤ unsigned_abs a + unsigned_abs b }
{
    a + b
}

// The determinant of three vectors.
fn determinant(a: Place, b: Place, c: Place) -> i128
    requires a { IsWithin (2 ^ 34) a }
    requires b { IsWithin (2 ^ 34) b }
    requires c { IsWithin (2 ^ 34) c }
    ensures value { result ≡ det_of a b c }
    ensures small { unsigned_abs result ≤ 2 ^ 105 }
{
    let x = term(a.x, minor(b.y, b.z, c.y, c.z));
    let y = term(a.y, minor(b.z, b.x, c.z, c.x));
    let z = term(a.z, minor(b.x, b.y, c.x, c.y));
    sum(sum(x, y), z)
}

fn place(places: &[Place], rank: u32) -> Place
    requires within { rank < length places.now }
    requires small { All IsSmallPlace places.now }
    ensures value { result ≡ place_at places.now rank }
    ensures small { IsSmallPlace result }
{
    places[rank as usize]
}

fn is_above(number: i128) -> bool
    ensures { result ≡ is_above_zero number }
{
    number > 0
}

// Whether the tetrahedron has a volume above zero.
fn is_positive(places: &[Place], tet: [u32; 4]) -> bool
    requires ranks { All (λ n. n < length places.now) tet }
    requires small { All IsSmallPlace places.now }
    ensures { result ≡ is_positive_tet places.now tet }
{
    let [a, b, c, d] = tet;
    let from = place(places, a);
    is_above(determinant(
        minus(place(places, b), from),
        minus(place(places, c), from),
        minus(place(places, d), from),
    ))
}

/// The first tetrahedron whose volume is not above zero.
pub fn first_not_positive(places: &[Place], tets: &[[u32; 4]]) -> Option<usize>
    requires ranks { All (All (λ n. n < length places.now)) tets.now }
    requires small { All IsSmallPlace places.now }
    ensures value { result ≡ position (λ t. not (is_positive_tet places.now t)) tets.now }
    ensures within { IfSome result (λ i. i < length tets.now) }
{
    for (i, tet) in tets.iter().enumerate() {
        if !is_positive(places, *tet) {
            return Some(i);
        }
    }
    None
}
