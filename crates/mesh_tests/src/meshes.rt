use crate::first::FIRST_EXTREMES;
use mesh_lists::{Mesh, build_mesh, extremes};
use small_images::{ONE_SAMPLE_TETS, field_of};
use snap_rule::Shares;
use st_base::{Dims, Place};
use std::alloc::Global;

// The places of the nodes of the mesh of one sample.
const PLACES: [[i64; 3]; 15] = [
    [0, 0, -4096],
    [-2341, -2341, -2341],
    [2341, -2341, -2341],
    [-2341, 2341, -2341],
    [2341, 2341, -2341],
    [0, -4096, 0],
    [-4096, 0, 0],
    [0, 0, 0],
    [4096, 0, 0],
    [0, 4096, 0],
    [-2341, -2341, 2341],
    [2341, -2341, 2341],
    [-2341, 2341, 2341],
    [2341, 2341, 2341],
    [0, 0, 4096],
];

// Some nodes of the mesh of two samples in a row, and their places.
const PLACES_OF_TWO: [(usize, [i64; 3]); 4] = [
    (0, [0, 0, -4096]),
    (1, [8192, 0, -4096]),
    (3, [2731, -2731, -2731]),
    (4, [10533, -2341, -2341]),
];

// One number for the first half of the samples, and one for the rest.
fn halves(alloc: Global, count: u32, first: i64, rest: i64) -> Option<Vec<i64>> {
    let mut samples = Vec::new(alloc);
    for k in 0..count {
        let sample = if k <= (count - 1) / 2 { first } else { rest };
        samples.push(sample).ok()?;
    }
    Some(samples)
}

// The mesh of a small image of two numbers at a level, given as its double.
fn mesh(
    alloc: Global,
    dims: Dims,
    numbers: (i64, i64),
    twice: i64,
    below: bool,
    shares: Shares,
) -> Option<Mesh> {
    let Dims { nx, ny, nz } = dims;
    if nx > 9 || ny > 9 || nz > 9 || nx * ny * nz == 0 {
        return None;
    }
    let samples = halves(alloc, nx * ny * nz, numbers.0, numbers.1)?;
    let field = field_of(alloc, dims, &samples, twice, below)?;
    build_mesh(alloc, &field, shares).ok()
}

/// The mesh of ones at level 1/2, with the usual shares.
pub(crate) fn mesh_of_ones(alloc: Global, nx: u32, ny: u32, nz: u32) -> Option<Mesh> {
    let shares = Shares::new(1023, 1687)?;
    mesh(alloc, Dims { nx, ny, nz }, (1, 1), 1, false, shares)
}

#[test]
fn how_large_meshes_are(rt: HostRuntime) {
    // sizes; the first half of the samples, the rest; twice the level, whether what is below is filled; shares of long
    // and of short edges; nodes, tetrahedra
    for (nx, ny, nz, first, rest, twice, below, long, short, nodes, tets) in [
        (1, 1, 1, 1, 1, 1, false, 1023, 1687, 15, 24),
        (1, 1, 1, 1, 1, 2, false, 1023, 1687, 0, 0),
        (1, 1, 1, -1, -1, -1, true, 1023, 1687, 15, 24),
        (2, 1, 1, 1, 1, 1, false, 1023, 1687, 24, 44),
        (2, 1, 1, 1, 1, 1, false, 1023, 0, 28, 52),
        (2, 1, 1, 1, -20000, 1, false, 0, 0, 0, 0),
        (2, 2, 2, 1, 1, 1, false, 1023, 1687, 59, 144),
    ] {
        let shares = Shares::new(long, short).expect(&rt, "shares");
        let dims = Dims { nx, ny, nz };
        let mesh = mesh(rt.alloc(), dims, (first, rest), twice, below, shares);
        let mesh = mesh.expect(&rt, "a mesh");
        assert_eq!(rt; (mesh.places().len(), mesh.tets().len()), (nodes, tets));
        assert_eq!(rt; extremes(&mesh).is_none(), tets == 0);
    }
}

#[test]
fn mesh_of_one_sample(rt: HostRuntime) {
    let mesh = mesh_of_ones(rt.alloc(), 1, 1, 1).expect(&rt, "a mesh");
    assert_eq!(rt; mesh.tets(), ONE_SAMPLE_TETS.as_slice());
    for (node, [x, y, z]) in PLACES.iter().copied().enumerate() {
        assert_eq!(rt; mesh.places().get(node), Some(&Place { x, y, z }));
    }
    assert_eq!(rt; extremes(&mesh), Some(FIRST_EXTREMES));
}

#[test]
fn places_of_snapped_nodes(rt: HostRuntime) {
    let mesh = mesh_of_ones(rt.alloc(), 2, 1, 1).expect(&rt, "a mesh");
    for (node, [x, y, z]) in PLACES_OF_TWO {
        assert_eq!(rt; mesh.places().get(node), Some(&Place { x, y, z }));
    }
}
