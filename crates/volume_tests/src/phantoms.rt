//! Samples of phantoms.

use crate::rows::{field, number};
use phantom::phantom;
use st_base::Volume;
use std::alloc::Global;

// A size and a seed, and all samples.
const SAMPLES: &str = "1 7 | 248
1 0 | 254
2 7 | 104 96 97 107 107 109 105 106";

// Sizes and seeds.
const VOLUMES: &str = "5 3
64 7
127 0
128 18446744073709551615";

// The phantom of a size and a seed; none where there is no such size.
fn phantom_of(alloc: Global, text: &str) -> Option<Volume> {
    let (size, seed) = text.split_once(' ')?;
    let (Ok(size), Ok(seed)) = (size.parse::<u32>(), seed.parse::<u64>()) else {
        return None;
    };
    if size < 1 || 128 < size {
        return None;
    }
    phantom(alloc, size, seed).ok()
}

#[test]
fn draws_from_the_seed(rt: HostRuntime) {
    for row in SAMPLES.lines() {
        let (given, wanted) = field(row);
        let volume = phantom_of(rt.alloc(), given).expect(&rt, "a phantom");
        let samples = volume.samples();
        let mut count = 0usize;
        for text in wanted.split(' ') {
            assert!(rt; count < samples.len(), "in {row}");
            assert_eq!(rt;
                Some(samples.get(count)),
                text.parse::<i64>().ok(),
                "in {row}"
            );
            count += 1;
        }
        assert_eq!(rt; count, samples.len(), "in {row}");
    }
}

#[test]
fn stays_in_range(rt: HostRuntime) {
    for row in VOLUMES.lines() {
        let volume = phantom_of(rt.alloc(), row).expect(&rt, "a phantom");
        let samples = volume.samples();
        let size = number(field(row).0.split_once(' ').map_or("", |parts| parts.0));
        assert_eq!(rt;
            samples.len() as u64,
            size.wrapping_mul(size).wrapping_mul(size),
            "of {row}"
        );
        for n in 0..samples.len() {
            let sample = samples.get(n);
            assert!(rt; 49 <= sample && sample <= 255, "of {row}");
        }
    }
}
