ghost use Rattle.std.specs.Prelude.{◌≡◌, ◌≤◌, ◌<◌, ◌+◌, ◌*◌, [], ◌∷◌, if◌then◌else◌};
ghost use Rattle.definitions.specs.Stencils.{is_plus, is_minus};
ghost use Rattle.vertex_numbers.specs.Around.{pieces_of_signs, pieces_with, pieces_up};

use crate::around::{Around, lacks_plus};
use definitions::Sign;

/// 1 for Plus, and 0 else.
fn plus(sign: Sign) -> u8
    ensures { result ≡ (if is_plus sign then 1 else 0) }
{
    match sign {
        Sign::Plus => 1,
        _ => 0,
    }
}

/// 1 for Minus, and 0 else.
fn minus(sign: Sign) -> u8
    ensures { result ≡ (if is_minus sign then 1 else 0) }
{
    match sign {
        Sign::Minus => 1,
        _ => 0,
    }
}

/// How many pieces a lattice tetrahedron of these signs has: none without a Plus vertex, and otherwise
/// one, and one more for each pair of a further Plus vertex and a Minus one.
fn pieces_of_signs(a: Sign, b: Sign, c: Sign, d: Sign) -> u8
    ensures count { result ≡ pieces_of_signs (a ∷ b ∷ c ∷ d ∷ []) }
    ensures few { result ≤ 3 }
{
    let above = plus(a) + plus(b) + plus(c) + plus(d);
    let below = minus(a) + minus(b) + minus(c) + minus(d);
    if above == 0 {
        0
    } else {
        1 + (above - 1) * below
    }
}

/// How many pieces the lattice tetrahedron of a vertex and three of its neighbours has; none where one of
/// these is outside the domain.
fn pieces_with(own: Sign, a: Option<Sign>, b: Option<Sign>, c: Option<Sign>) -> u8
    ensures count { result ≡ pieces_with own a b c }
    ensures few { result ≤ 3 }
{
    match (a, b, c) {
        (Some(a), Some(b), Some(c)) => pieces_of_signs(own, a, b, c),
        _ => 0,
    }
}

/// How many pieces the lattice tetrahedra have of which a vertex with these signs around it is the lowest.
pub fn pieces_up(around: &Around) -> u8
    ensures count { result ≡ pieces_up around.now.own around.now.up }
    ensures few { result ≤ 18 }
{
    if lacks_plus(around) {
        return 0;
    }
    let own = around.own;
    let [a, b, c, d, e, f, g] = around.up;
    pieces_with(own, a, d, f)
        + pieces_with(own, b, e, f)
        + pieces_with(own, c, d, g)
        + pieces_with(own, c, e, g)
        + pieces_with(own, d, f, g)
        + pieces_with(own, e, f, g)
}
