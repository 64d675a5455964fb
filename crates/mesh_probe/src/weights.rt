ghost use Rattle.std.specs.Prelude.{◌≡◌, ◌<ℤ◌, true, MatchOption, map, pos};
ghost use Rattle.definitions.specs.Vectors.{det};
ghost use Rattle.determinants.specs.Bounds.{AreNear};
ghost use Rattle.mesh_probe.specs.Boxes.{are_above, are_below, is_between, is_in_box};
ghost use Rattle.mesh_probe.specs.Holding.{Holds, weights};

use determinants::det;
use st_base::Place;

/// Whether four numbers are above a number.
fn are_above(a: i64, b: i64, c: i64, d: i64, q: i64) -> bool
    ensures { result ≡ are_above a b c d q }
{
    (q < a) & (q < b) & (q < c) & (q < d)
}

/// Whether they are below it.
fn are_below(a: i64, b: i64, c: i64, d: i64, q: i64) -> bool
    ensures { result ≡ are_below a b c d q }
{
    (a < q) & (b < q) & (c < q) & (d < q)
}

/// Whether it is neither below them nor above them.
fn is_between(a: i64, b: i64, c: i64, d: i64, q: i64) -> bool
    ensures { result ≡ is_between a b c d q }
{
    !are_above(a, b, c, d, q) & !are_below(a, b, c, d, q)
}

/// Whether a point is in the box around four places.
fn is_in_box(tet: [Place; 4], point: Place) -> bool
    ensures { result ≡ is_in_box tet point }
{
    let [a, b, c, d] = tet;
    let x = is_between(a.x, b.x, c.x, d.x, point.x);
    let y = is_between(a.y, b.y, c.y, d.y, point.y);
    let z = is_between(a.z, b.z, c.z, d.z, point.z);
    x & y & z
}

/// The weights of the nodes of a tetrahedron at a point in its box, if it holds the point.
fn weights_in_box(tet: [Place; 4], point: Place) -> Option<[u64; 4]>
    requires near { AreNear tet }
    requires inside { is_in_box tet point ≡ true }
    ensures { MatchOption result (Holds tet point → ⊥) (λ w. map pos w ≡ weights tet point) }
{
    let [a, b, c, d] = tet;
    let first = det([point, b, c, d]);
    if first < 0 {
        return None;
    }
    let second = det([a, point, c, d]);
    if second < 0 {
        return None;
    }
    let third = det([a, b, point, d]);
    if third < 0 {
        return None;
    }
    let fourth = det([a, b, c, point]);
    if fourth < 0 {
        return None;
    }
    Some([first as u64, second as u64, third as u64, fourth as u64])
}

/// The weights of the nodes of a tetrahedron at a point, if it holds the point.
pub fn weights_of(tet: [Place; 4], point: Place) -> Option<[u64; 4]>
    requires near { AreNear tet }
    requires positive { pos 0 <ℤ det tet }
    ensures { MatchOption result (Holds tet point → ⊥) (λ w. map pos w ≡ weights tet point) }
{
    if is_in_box(tet, point) {
        weights_in_box(tet, point)
    } else {
        None
    }
}
