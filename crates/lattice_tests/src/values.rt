use crate::fields::field_of;
use crate::rows::{naturals, numbers, part};
use samples::{Level, Signs, count_signs};

// Sizes and samples of images, and how many of their vertices are Plus, Zero and Minus.
const SIGNS: &str = "1 1 1 | 1 | 1 0 34
2 2 2 | 1 1 1 1 1 1 1 1 | 9 6 76
2 2 2 | 2 2 2 2 -2 -2 -2 -2 | 4 1 86
2 1 1 | 1 -20000 | 1 0 47";

// Numbers, and whether their halves are levels.
const LEVELS: &str = "8589934591 -> 1
-8589934591 -> 1
8589934592 -> 0";

#[test]
fn signs_of_small_images(rt: HostRuntime) {
    for row in SIGNS.lines() {
        let (sizes, rest) = part(row);
        let (samples, rest) = part(rest);
        let [plus, zero, minus] = naturals::<3>(rest).expect(&rt, row);
        let field = field_of(rt.alloc(), sizes, samples).expect(&rt, row);
        let expected = Signs {
            plus: u64::from(plus),
            zero: u64::from(zero),
            minus: u64::from(minus),
        };
        assert_eq!(rt; count_signs(&field), expected, "at {row}");
    }
}

#[test]
fn limits_of_levels(rt: HostRuntime) {
    for row in LEVELS.lines() {
        let [twice, is_level] = numbers::<2>(row).expect(&rt, row);
        assert_eq!(rt; Level::new(twice).is_some(), is_level == 1, "at {row}");
    }
}
