//! The first tetrahedron of the mesh of one sample, as tests expect it.
use dihedral::{Cosine, Extreme, Extremes, Place};

/// Where its nodes stand.
pub const FIRST: [Place; 4] = [
    Place {
        x: 0,
        y: 0,
        z: -4096,
    },
    Place {
        x: -2341,
        y: -2341,
        z: -2341,
    },
    Place {
        x: 2341,
        y: -2341,
        z: -2341,
    },
    Place { x: 0, y: 0, z: 0 },
];

/// The extremes of its angles, which are those of the whole mesh.
pub const FIRST_EXTREMES: Extremes = Extremes {
    least: Extreme {
        cosine: Cosine {
            sign: 1,
            num: 1,
            den: 4,
        },
        tet: 0,
        ends: [1, 7],
    },
    greatest: Extreme {
        cosine: Cosine {
            sign: 0,
            num: 0,
            den: 1,
        },
        tet: 0,
        ends: [0, 7],
    },
};
