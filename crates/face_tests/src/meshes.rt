use crate::expected::{FACES_FROM_ZERO, NEIGHBOURS_FROM_ZERO};
use face_neigh::{face_line, faces, faces_by_neighbours, neigh_line, neighbours};
use small_images::ONE_SAMPLE_TETS;
use st_base::NoMemory;
use std::alloc::Global;
use table_lines::cut;

// The tetrahedra around one sample above the level.
pub const TETS: [[u32; 4]; 24] = ONE_SAMPLE_TETS;

fn face_lines(alloc: Global, faces: &[[u32; 3]]) -> Result<Vec<u8>, NoMemory> {
    let mut out = Vec::new(alloc);
    for (number, face) in (0..u32::MAX).zip(faces) {
        face_line(&mut out, number, *face)?;
    }
    Ok(out)
}

fn neigh_lines(alloc: Global, across: &[[Option<u32>; 4]]) -> Result<Vec<u8>, NoMemory> {
    let mut out = Vec::new(alloc);
    for (number, tets) in (0..u32::MAX).zip(across) {
        neigh_line(&mut out, number, *tets)?;
    }
    Ok(out)
}

#[test]
fn boundary_of_one_sample(rt: HostRuntime) {
    let alloc = rt.alloc();
    let found = faces(alloc, &TETS).expect(&rt, "memory");
    let lines = face_lines(alloc, &found).expect(&rt, "memory");
    assert_eq!(rt; lines.as_slice(), cut(FACES_FROM_ZERO, b'\n').1);
}

#[test]
fn neighbours_of_one_sample(rt: HostRuntime) {
    let alloc = rt.alloc();
    let across = neighbours(alloc, &TETS).expect(&rt, "memory");
    let lines = neigh_lines(alloc, &across).expect(&rt, "memory");
    assert_eq!(rt; lines.as_slice(), cut(NEIGHBOURS_FROM_ZERO, b'\n').1);

    let found = faces_by_neighbours(alloc, &TETS, &across).expect(&rt, "memory");
    let lines = face_lines(alloc, &found).expect(&rt, "memory");
    assert_eq!(rt; lines.as_slice(), cut(FACES_FROM_ZERO, b'\n').1);
}

#[test]
fn empty_mesh(rt: HostRuntime) {
    let alloc = rt.alloc();
    assert_eq!(rt; faces(alloc, &[]).expect(&rt, "memory").len(), 0);
    assert_eq!(rt; neighbours(alloc, &[]).expect(&rt, "memory").len(), 0);
}
