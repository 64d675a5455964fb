use crate::rows::{naturals, numbers};
use bcc_lattice::{
    Dir, Layout, State, code, cut_place, id, place, state_of, tets_at, vertex_count, vertex_of,
};
use st_base::{Dims, Place, Vertex};

const ONE: Dims = Dims {
    nx: 1,
    ny: 1,
    nz: 1,
};

// Codes, and the edges and cuts of the Zero vertices of which they are.
const CODES: &str = "196662 -> 13 3072
87382 -> 5 1365
262194 -> 12 4096";

// Words that are the code of no state.
const NO_CODES: &str = "0
5
64";

// Vertices by h, y and x, codes of their states, and their places.
const PLACES: &str = "3 3 3 with 196662 -> 3072 3072 3072";

// Vertices by h, y and x, directions, numbers of cuts, and their places.
const CUT_PLACES: &str = "2 2 2 to 6 by 3072 -> 3072 3072 3072";

// Numbers, and whether there is a direction of them.
const DIRECTIONS: &str = "0 -> 0
1 -> 1
7 -> 1
8 -> 0";

// The layers of one sample: their first ids, and how many vertices they have.
const LAYERS: &str = "0 -> 0 9
1 -> 9 4
2 -> 13 9
3 -> 22 4
4 -> 26 9";

// The slabs of one sample: their layers, and the layers that they reach.
const SLABS: &str = "0 -> 0 2 of 0 4
1 -> 2 4 of 0 5
2 -> 4 5 of 2 5";

#[test]
fn tetrahedra_of_one_sample(rt: HostRuntime) {
    assert_eq!(rt; vertex_count(ONE), 35);
    let mut tets: u32 = 0;
    for n in 0..35u32 {
        let v = vertex_of(ONE, n).expect(&rt, "a vertex");
        let at = tets_at(ONE, v);
        if id(ONE, v) == 17 {
            assert_eq!(rt; at.len, 6);
        }
        tets = tets.wrapping_add(u32::from(at.len));
    }
    assert_eq!(rt; tets, 48);
    assert!(rt; vertex_of(ONE, 35).is_none());
}

#[test]
fn codes_of_states(rt: HostRuntime) {
    for row in CODES.lines() {
        let [word, edge, k] = naturals::<3>(row).expect(&rt, row);
        let state = state_of(u64::from(word)).expect(&rt, row);
        assert_eq!(rt; code(state), u64::from(word), "at {row}");
        let State::Zero { edge: e, k: cut } = state else {
            assert!(rt; false, "at {row}");
            return;
        };
        assert_eq!(rt; (u32::from(e), u32::from(cut)), (edge, k), "at {row}");
    }
    for row in NO_CODES.lines() {
        let [word] = naturals::<1>(row).expect(&rt, row);
        assert!(rt; state_of(u64::from(word)).is_none(), "at {row}");
    }
}

#[test]
fn places_of_nodes(rt: HostRuntime) {
    for row in PLACES.lines() {
        let [h, y, x, word, place_x, place_y, place_z] = naturals::<7>(row).expect(&rt, row);
        let state = state_of(u64::from(word)).expect(&rt, row);
        let expected = Place {
            x: i64::from(place_x),
            y: i64::from(place_y),
            z: i64::from(place_z),
        };
        assert_eq!(rt; place(Vertex { h, y, x }, state), expected, "at {row}");
    }
}

fn direction(number: u32) -> Option<Dir> {
    Dir::new(u8::try_from(number).ok()?)
}

#[test]
fn places_of_cuts(rt: HostRuntime) {
    for row in CUT_PLACES.lines() {
        let [h, y, x, number, k, place_x, place_y, place_z] = naturals::<8>(row).expect(&rt, row);
        let dir = direction(number).expect(&rt, row);
        let k = u16::try_from(k).ok().expect(&rt, row);
        let expected = Place {
            x: i64::from(place_x),
            y: i64::from(place_y),
            z: i64::from(place_z),
        };
        assert_eq!(rt; cut_place(Vertex { h, y, x }, dir, k), expected, "at {row}");
    }
    for row in DIRECTIONS.lines() {
        let [number, is_one] = naturals::<2>(row).expect(&rt, row);
        assert_eq!(rt; direction(number).is_some(), is_one == 1, "at {row}");
    }
}

#[test]
fn layers_of_one_sample(rt: HostRuntime) {
    let layout = Layout { dims: ONE, slab: 1 };
    assert_eq!(rt; layout.layers(), 5);
    assert_eq!(rt; layout.slabs(), 3);
    for row in LAYERS.lines() {
        let [h, start, len] = naturals::<3>(row).expect(&rt, row);
        assert!(rt; h < layout.layers());
        assert_eq!(rt; layout.layer_start(h), start, "at {row}");
        assert_eq!(rt; layout.layer_len(h), len, "at {row}");
    }
    for row in SLABS.lines() {
        let [j, first, past, reach_first, reach_past] = naturals::<5>(row).expect(&rt, row);
        assert!(rt; j < layout.slabs());
        assert_eq!(rt; layout.layers_of(j), (first, past), "at {row}");
        assert_eq!(rt; layout.reach_of(j), (reach_first, reach_past), "at {row}");
    }
}
