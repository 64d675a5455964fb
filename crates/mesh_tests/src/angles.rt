ghost use Rattle.std.specs.Prelude.{IfSome};
ghost use Rattle.dihedral.specs.Fractions.{IsFraction};

use crate::first::{FIRST, FIRST_EXTREMES};
use dihedral::{Cosine, Remembering, compare, edge_cosine, extremes_of, fold};
use std::cmp::Ordering;

// The numbers of the nodes of the first tetrahedron.
const NODES: [u32; 4] = [0, 1, 2, 7];

// The signed squares at its edges 0 to 5.
const SQUARES: [(i8, u128, u128); 6] = [
    (1, 3080025, 17120612),
    (1, 3080025, 17120612),
    (0, 0, 1),
    (1, 85849, 4280153),
    (1, 1, 4),
    (1, 1, 4),
];

// Two fractions, and their order.
const ORDERS: [(i128, u128, i128, u128, Ordering); 9] = [
    (
        (1 << 120) - 1,
        1 << 120,
        (1 << 120) - 2,
        (1 << 120) - 1,
        Ordering::Greater,
    ),
    (-1, 4, 0, 1, Ordering::Less),
    (1, 4, 1, 4, Ordering::Equal),
    (2, 8, 1, 4, Ordering::Equal),
    (0, 1, 0, 7, Ordering::Equal),
    (1, 3, 333333333333333, 1000000000000000, Ordering::Greater),
    (-1, 3, -333333333333333, 1000000000000000, Ordering::Less),
    // Neighbours among the numbers of Fibonacci: their quotients are 1 to the end.
    (
        131151201344081895336534324866,
        212207101440105399533740733471,
        81055900096023504197206408605,
        131151201344081895336534324866,
        Ordering::Greater,
    ),
    (
        -131151201344081895336534324866,
        212207101440105399533740733471,
        -81055900096023504197206408605,
        131151201344081895336534324866,
        Ordering::Less,
    ),
];

// The fraction with its sign, if the denominator is above 0.
fn fraction(num: i128, den: u128) -> Option<Cosine>
    ensures { IfSome result IsFraction }
{
    if den == 0 {
        return None;
    }
    let size = num.unsigned_abs();
    if num > 0 {
        Some(Cosine {
            sign: 1,
            num: size,
            den,
        })
    } else if num < 0 {
        Some(Cosine {
            sign: -1,
            num: size,
            den,
        })
    } else {
        Some(Cosine {
            sign: 0,
            num: 0,
            den,
        })
    }
}

#[test]
fn fractions_in_order(rt: HostRuntime) {
    for (a, b, c, d, order) in ORDERS {
        let Some(first) = fraction(a, b) else {
            panic!(rt; "no fraction");
        };
        let Some(second) = fraction(c, d) else {
            panic!(rt; "no fraction");
        };
        assert_eq!(rt; compare(first, second), order);
        assert_eq!(rt; compare(second, first), order.reverse());
    }
}

#[test]
fn squares_of_the_first_tetrahedron(rt: HostRuntime) {
    for edge in 0..6u8 {
        let (sign, num, den) = SQUARES[edge as usize];
        assert_eq!(rt; edge_cosine(FIRST, edge), Cosine { sign, num, den });
    }
}

#[test]
fn extremes_of_the_first_tetrahedron(rt: HostRuntime) {
    let found = extremes_of(FIRST, 0, NODES);
    assert_eq!(rt; found, FIRST_EXTREMES);
    assert_eq!(rt; fold(None, None), None);
    assert_eq!(rt; fold(None, Some(found)), Some(found));
    assert_eq!(rt; fold(Some(found), None), Some(found));
    // Of angles that are equal the first stands.
    let later = extremes_of(FIRST, 1, NODES);
    assert_eq!(rt; fold(Some(found), Some(later)), Some(found));
    assert_eq!(rt; fold(Some(later), Some(found)), Some(later));
    let mut remembering = Remembering::new();
    remembering.take(FIRST, 0, NODES);
    remembering.take(FIRST, 1, NODES);
    assert_eq!(rt; remembering.found(), Some(found));
}
