use crate::meshes::mesh_of_ones;
use std::alloc::Global;

type Triangle = [u32; 3];

// The triangles of a tetrahedron, each directed.
fn triangles_of(tet: [u32; 4]) -> [Triangle; 4] {
    let [a, b, c, d] = tet;
    [[a, c, b], [a, b, d], [a, d, c], [b, c, d]]
}

fn has(triangle: Triangle, node: u32) -> bool {
    let [a, b, c] = triangle;
    a == node || b == node || c == node
}

// In how many tetrahedra a triangle is.
fn times_in(tets: &[[u32; 4]], triangle: Triangle) -> u32 {
    let [a, b, c] = triangle;
    let mut times: u32 = 0;
    for tet in tets {
        for other in triangles_of(*tet) {
            let same = has(other, a) && has(other, b) && has(other, c);
            times = times.wrapping_add(u32::from(same));
        }
    }
    times
}

// How often an edge is walked from `from` to `to` over these triangles.
fn walks(triangles: &[Triangle], from: u32, to: u32) -> u32 {
    let mut walks: u32 = 0;
    for triangle in triangles {
        let [a, b, c] = *triangle;
        for (p, q) in [(a, b), (b, c), (c, a)] {
            walks = walks.wrapping_add(u32::from(p == from && q == to));
        }
    }
    walks
}

// Each edge is walked as often one way as the other.
fn closes(boundary: &[Triangle]) -> bool {
    for triangle in boundary {
        let [a, b, c] = *triangle;
        for (p, q) in [(a, b), (b, c), (c, a)] {
            if walks(boundary, p, q) != walks(boundary, q, p) {
                return false;
            }
        }
    }
    true
}

// The triangles that are in just one tetrahedron; none where one is in more than two.
fn boundary(alloc: Global, tets: &[[u32; 4]]) -> Option<Vec<Triangle>> {
    let mut boundary = Vec::new(alloc);
    for tet in tets {
        for triangle in triangles_of(*tet) {
            let times = times_in(tets, triangle);
            if times > 2 || (times == 1 && boundary.push(triangle).is_err()) {
                return None;
            }
        }
    }
    Some(boundary)
}

// Two voxels in a row, and eight in a cube.
#[test]
fn boundaries_close(rt: HostRuntime) {
    for (nx, ny, nz) in [(2, 1, 1), (2, 2, 2)] {
        let mesh = mesh_of_ones(rt.alloc(), nx, ny, nz).expect(&rt, "a mesh");
        let boundary = boundary(rt.alloc(), mesh.tets()).expect(&rt, "a boundary");
        assert!(rt; boundary.len() > 3);
        assert!(rt; closes(&boundary));
    }
}
