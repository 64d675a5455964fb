use crate::rows::{naturals, numbers};
use cut_points::{cut, reach2};

// The values at the lower and the upper end of an edge, and the number of its cut.
const CUTS: &str = "8 -6 -> 2341
-6 8 -> 1755
8 -8 -> 2048
8 -4 -> 2731
-4 8 -> 1365
24 -8 -> 3072
8 -320008 -> 0
-160006 8 -> 4096
-6400 8000 -> 1820";

// Values of edges without a cut.
const UNCUT: &str = "8 6
8 0";

// Distances on long edges and on short ones, and their squares.
const LONG: &str = "4096 -> 67108864";

const SHORT: &str = "1755 -> 9240075";

fn cut_number(a: i64, b: i64) -> Option<u16> {
    if a.unsigned_abs() > 1 << 40 || b.unsigned_abs() > 1 << 40 {
        return None;
    }
    cut(a, b)
}

#[test]
fn cut_numbers(rt: HostRuntime) {
    for row in CUTS.lines() {
        let [a, b, k] = numbers::<3>(row).expect(&rt, row);
        assert_eq!(rt; cut_number(a, b).map(i64::from), Some(k), "at {row}");
    }
    for row in UNCUT.lines() {
        let [a, b] = numbers::<2>(row).expect(&rt, row);
        assert_eq!(rt; cut_number(a, b), None, "at {row}");
    }
}

fn square(long: bool, t: u32) -> Option<u32> {
    if t <= 4096 {
        Some(reach2(long, t as u16))
    } else {
        None
    }
}

#[test]
fn squares_of_distances(rt: HostRuntime) {
    for (long, rows) in [(true, LONG), (false, SHORT)] {
        for row in rows.lines() {
            let [t, expected] = naturals::<2>(row).expect(&rt, row);
            assert_eq!(rt; square(long, t), Some(expected), "at {row}");
        }
    }
}
