use crate::fields::{Held, held_at, survey_of};
use mesh_lists::{Mesh, build_mesh};
use small_images::field_of;
use snap_rule::Shares;
use st_base::{Dims, Place};
use std::alloc::Global;
use survey::Survey;

const DIMS: Dims = Dims {
    nx: 5,
    ny: 4,
    nz: 3,
};

// Numbers from -20 to 20 without an order that is seen.
fn noise(alloc: Global) -> Option<Vec<i64>> {
    let mut samples = Vec::new(alloc);
    let mut state = 7u32;
    for _ in 0..60 {
        state = state.wrapping_mul(1_103_515_245).wrapping_add(12_345);
        samples.push(i64::from(state / 65_536 % 41) - 20).ok()?;
    }
    Some(samples)
}

fn minus(p: Place, q: Place) -> [i64; 3] {
    [
        p.x.wrapping_sub(q.x),
        p.y.wrapping_sub(q.y),
        p.z.wrapping_sub(q.z),
    ]
}

fn times(a: i64, b: i64, c: i64) -> i64 {
    a.wrapping_mul(b).wrapping_mul(c)
}

// Six times the signed volume, by the six products of the rule of Sarrus.
fn volume(tet: [Place; 4]) -> i64 {
    let [p, q, r, s] = tet;
    let [a, b, c] = minus(q, p);
    let [d, e, f] = minus(r, p);
    let [g, h, i] = minus(s, p);
    times(a, e, i)
        .wrapping_add(times(b, f, g))
        .wrapping_add(times(c, d, h))
        .wrapping_sub(times(c, e, g))
        .wrapping_sub(times(b, d, i))
        .wrapping_sub(times(a, f, h))
}

// The weights of a tetrahedron's nodes at a point, if none is below 0.
fn weights(tet: [Place; 4], point: Place) -> Option<[u64; 4]> {
    let [a, b, c, d] = tet;
    let first = u64::try_from(volume([point, b, c, d])).ok()?;
    let second = u64::try_from(volume([a, point, c, d])).ok()?;
    let third = u64::try_from(volume([a, b, point, d])).ok()?;
    let fourth = u64::try_from(volume([a, b, c, point])).ok()?;
    Some([first, second, third, fourth])
}

fn corners(places: &[Place], tet: [u32; 4]) -> Option<[Place; 4]> {
    let [a, b, c, d] = tet;
    Some([
        *places.get(a as usize)?,
        *places.get(b as usize)?,
        *places.get(c as usize)?,
        *places.get(d as usize)?,
    ])
}

// The first of these tetrahedra that holds a point.
fn first_of(places: &[Place], tets: &[[u32; 4]], point: Place) -> Option<Held> {
    for (number, tet) in (0..u64::MAX).zip(tets) {
        if let Some(weights) = weights(corners(places, *tet)?, point) {
            return Some(Held { number, weights });
        }
    }
    None
}

// A point in the padded image, on the lattice or off it.
fn point_of(n: u8) -> Place {
    let n = i64::from(n);
    let shift = n % 3 * 1365 - 8192;
    Place {
        x: n * 5 % 13 * 4096 + shift,
        y: n * 7 % 11 * 4096 + shift,
        z: n % 9 * 4096 + shift,
    }
}

// Whether what is told of a point is what looking through all tetrahedra finds.
fn is_right(survey: &Survey, mesh: &Mesh, point: Place) -> bool {
    match held_at(survey, point) {
        Some((held, states)) => {
            held == first_of(mesh.places(), mesh.tets(), point) && states <= 288
        }
        None => false,
    }
}

#[test]
fn points_in_noise_are_found_as_by_looking_through_all(rt: HostRuntime) {
    let alloc = rt.alloc();
    let shares = Shares::new(1023, 1687).expect(&rt, "shares");
    let samples = noise(alloc).expect(&rt, "memory");
    let field = field_of(alloc, DIMS, &samples, 1, false).expect(&rt, "a field");
    let survey = survey_of(&rt, alloc, &field, shares).expect(&rt, "a survey");
    let mesh = build_mesh(alloc, &field, shares).expect(&rt, "memory");
    for n in 0..99u8 {
        assert!(rt; is_right(&survey, &mesh, point_of(n)));
    }
    // Each node is held.
    for place in mesh.places().iter().step_by(20) {
        assert!(rt; is_right(&survey, &mesh, *place));
        assert!(rt; first_of(mesh.places(), mesh.tets(), *place).is_some());
    }
    assert!(rt; mesh.tets().len() > 500);
}
