//! The pieces of the 81 cases of signs.
ghost use Rattle.std.specs.Prelude.{◌≡◌, ◌<◌};
ghost use Rattle.stencils.specs.Cases.{FitsCase, row_place, sign_number};

use definitions::Sign;

/// The pieces of a lattice tetrahedron, of which the first `len` are there: each four places among the ten nodes
/// that a tetrahedron can have. In the order of their keys these are
///
///     0  vertex 0     1 2 3  the cuts from vertex 0 to 1, 2 and 3
///     4  vertex 1     5 6    the cuts from vertex 1 to 2 and 3
///     7  vertex 2     8      the cut from vertex 2 to 3
///     9  vertex 3
#[derive(Clone, Copy)]
pub struct Case {
    pub len: u8,
    pub of: [[u8; 4]; 3],
}

/// The pieces of a case in a tetrahedron whose volume is above zero, and in one whose volume is below.
#[derive(Clone, Copy)]
pub struct Row {
    pub straight: Case,
    pub turned: Case,
}

// The pieces of a case in a tetrahedron whose volume is above zero; in the other the last two nodes of each are swapped.
macro_rules! row {
    () => {
        Row {
            straight: Case { len: 0, of: [[0; 4]; 3] },
            turned: Case { len: 0, of: [[0; 4]; 3] },
        }
    };
    ($a:tt $b:tt $c:tt $d:tt) => {
        Row {
            straight: Case { len: 1, of: [[$a, $b, $c, $d], [0; 4], [0; 4]] },
            turned: Case { len: 1, of: [[$a, $b, $d, $c], [0; 4], [0; 4]] },
        }
    };
    ($a:tt $b:tt $c:tt $d:tt, $e:tt $f:tt $g:tt $h:tt) => {
        Row {
            straight: Case { len: 2, of: [[$a, $b, $c, $d], [$e, $f, $g, $h], [0; 4]] },
            turned: Case { len: 2, of: [[$a, $b, $d, $c], [$e, $f, $h, $g], [0; 4]] },
        }
    };
    ($a:tt $b:tt $c:tt $d:tt, $e:tt $f:tt $g:tt $h:tt, $i:tt $j:tt $k:tt $l:tt) => {
        Row {
            straight: Case { len: 3, of: [[$a, $b, $c, $d], [$e, $f, $g, $h], [$i, $j, $k, $l]] },
            turned: Case { len: 3, of: [[$a, $b, $d, $c], [$e, $f, $h, $g], [$i, $j, $l, $k]] },
        }
    };
}

// One row for the signs of the four vertices, minus before zero before plus, the last vertex fastest.
static ROWS: [Row; 81] = [
    row!(), // - - - -
    row!(), // - - - 0
    row!(3 6 8 9), // - - - +
    row!(), // - - 0 -
    row!(), // - - 0 0
    row!(3 6 7 9), // - - 0 +
    row!(2 5 7 8), // - - + -
    row!(2 5 7 9), // - - + 0
    row!(2 3 6 9, 2 5 9 6, 2 5 7 9), // - - + +
    row!(), // - 0 - -
    row!(), // - 0 - 0
    row!(3 4 8 9), // - 0 - +
    row!(), // - 0 0 -
    row!(), // - 0 0 0
    row!(3 4 7 9), // - 0 0 +
    row!(2 4 7 8), // - 0 + -
    row!(2 4 7 9), // - 0 + 0
    row!(2 3 4 9, 2 4 7 9), // - 0 + +
    row!(1 4 5 6), // - + - -
    row!(1 4 5 9), // - + - 0
    row!(1 3 9 8, 1 4 5 8, 1 4 8 9), // - + - +
    row!(1 4 7 6), // - + 0 -
    row!(1 4 7 9), // - + 0 0
    row!(1 3 9 7, 1 4 7 9), // - + 0 +
    row!(1 2 8 7, 1 4 8 6, 1 4 7 8), // - + + -
    row!(1 2 9 7, 1 4 7 9), // - + + 0
    row!(1 2 3 9, 1 2 9 7, 1 4 7 9), // - + + +
    row!(), // 0 - - -
    row!(), // 0 - - 0
    row!(0 6 8 9), // 0 - - +
    row!(), // 0 - 0 -
    row!(), // 0 - 0 0
    row!(0 6 7 9), // 0 - 0 +
    row!(0 5 7 8), // 0 - + -
    row!(0 5 7 9), // 0 - + 0
    row!(0 5 9 6, 0 5 7 9), // 0 - + +
    row!(), // 0 0 - -
    row!(), // 0 0 - 0
    row!(0 4 8 9), // 0 0 - +
    row!(), // 0 0 0 -
    row!(), // 0 0 0 0
    row!(0 4 7 9), // 0 0 0 +
    row!(0 4 7 8), // 0 0 + -
    row!(0 4 7 9), // 0 0 + 0
    row!(0 4 7 9), // 0 0 + +
    row!(0 4 5 6), // 0 + - -
    row!(0 4 5 9), // 0 + - 0
    row!(0 4 5 8, 0 4 8 9), // 0 + - +
    row!(0 4 7 6), // 0 + 0 -
    row!(0 4 7 9), // 0 + 0 0
    row!(0 4 7 9), // 0 + 0 +
    row!(0 4 8 6, 0 4 7 8), // 0 + + -
    row!(0 4 7 9), // 0 + + 0
    row!(0 4 7 9), // 0 + + +
    row!(0 1 2 3), // + - - -
    row!(0 1 2 9), // + - - 0
    row!(0 1 2 8, 0 1 8 6, 0 6 8 9), // + - - +
    row!(0 1 7 3), // + - 0 -
    row!(0 1 7 9), // + - 0 0
    row!(0 1 7 6, 0 6 7 9), // + - 0 +
    row!(0 1 8 3, 0 1 5 8, 0 5 7 8), // + - + -
    row!(0 1 5 9, 0 5 7 9), // + - + 0
    row!(0 1 5 6, 0 5 9 6, 0 5 7 9), // + - + +
    row!(0 2 3 4), // + 0 - -
    row!(0 2 9 4), // + 0 - 0
    row!(0 2 8 4, 0 4 8 9), // + 0 - +
    row!(0 3 4 7), // + 0 0 -
    row!(0 4 7 9), // + 0 0 0
    row!(0 4 7 9), // + 0 0 +
    row!(0 3 4 8, 0 4 7 8), // + 0 + -
    row!(0 4 7 9), // + 0 + 0
    row!(0 4 7 9), // + 0 + +
    row!(0 2 3 6, 0 2 6 5, 0 4 5 6), // + + - -
    row!(0 2 9 5, 0 4 5 9), // + + - 0
    row!(0 2 8 5, 0 4 5 8, 0 4 8 9), // + + - +
    row!(0 3 6 7, 0 4 7 6), // + + 0 -
    row!(0 4 7 9), // + + 0 0
    row!(0 4 7 9), // + + 0 +
    row!(0 3 6 8, 0 4 8 6, 0 4 7 8), // + + + -
    row!(0 4 7 9), // + + + 0
    row!(0 4 7 9), // + + + +
];

/// The pieces of a lattice tetrahedron with these signs.
pub fn row_of_signs(signs: [Sign; 4]) -> &'static Row
    ensures { FitsCase signs result.now }
{
    &ROWS[place_of_signs(signs)]
}

fn place_of_signs(signs: [Sign; 4]) -> usize
    ensures value { result ≡ row_place signs }
    ensures below { result < 81 }
{
    let [a, b, c, d] = signs;
    ((number_of(a) * 3 + number_of(b)) * 3 + number_of(c)) * 3 + number_of(d)
}

fn number_of(sign: Sign) -> usize
    ensures value { result ≡ sign_number sign }
    ensures below { result < 3 }
{
    match sign {
        Sign::Minus => 0,
        Sign::Zero => 1,
        Sign::Plus => 2,
    }
}
