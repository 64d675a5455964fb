ghost use Rattle.std.specs.Prelude.{◌≡◌, ◌<◌, All, IfSome};
ghost use Rattle.std.specs.Bool.{OnTrue};
ghost use Rattle.definitions.specs.Lattice.{layers};
ghost use Rattle.definitions.specs.Mesh.{ArePadded};
ghost use Rattle.vertex_numbers.specs.Counts.{count_of_layer, layer_counts};

use crate::fields::field_of;
use crate::rows::naturals;
use bcc_lattice::{Layout, layers, vertex_count, vertex_of};
use snap_rule::{Shares, States, all_states};
use st_base::{Dims, Tally};
use std::alloc::Global;
use vertex_numbers::{LayerCount, Offsets, Starts, layer_count, nodes_at, used};

const ONE: Dims = Dims {
    nx: 1,
    ny: 1,
    nz: 1,
};

// How many nodes and tetrahedra each layer has where the vertex of id 17 is Plus, the only one of 35.
const LAYERS: &str = "0 -> 1 4
1 -> 4 12
2 -> 10 8
3 -> 0 0
4 -> 0 0";

// How many nodes and tetrahedra stand before some layers then.
const BEFORE: &str = "2 -> 5 16
4 -> 15 24";

// Keys and numbers of some nodes then.
const NUMBERS: &str = "136 -> 7
143 -> 14";

// The keys of the nodes that there are then.
const KEYS: [u32; 15] = [
    39, 78, 85, 92, 99, 114, 129, 136, 137, 138, 139, 140, 141, 142, 143,
];

// The states of one sample of 1 at the level 0.5: one Plus vertex, and Minus around it.
#[tactic(auto, using(node_laws::proofs::Padding::states_are_padded))]
fn one_plus(alloc: Global) -> Option<States>
    ensures { IfSome result (λ s. ArePadded s.dims s.states) }
{
    let field = field_of(alloc, "1 1 1", "1")?;
    let shares = Shares::new(0, 0)?;
    all_states(alloc, &field, shares, &mut Tally::new()).ok()
}

fn count_of(states: &States, h: u32) -> LayerCount
    requires padded { ArePadded states.now.dims states.now.states }
    requires layer { h < layers states.now.dims }
    ensures { result ≡ count_of_layer states.now.dims states.now.states h }
{
    let mut source = states;
    layer_count(&mut source, states.dims(), h)
}

fn counts_of(alloc: Global, states: &States) -> Option<Vec<LayerCount>>
    requires { ArePadded states.now.dims states.now.states }
    ensures { IfSome result (λ v. v.items ≡ layer_counts states.now.dims states.now.states) }
{
    let mut counts = Vec::new(alloc);
    for h in 0..layers(states.dims()) {
        if counts.push(count_of(states, h)).is_err() {
            return None;
        }
    }
    Some(counts)
}

fn are_small(counts: &[LayerCount]) -> bool
    ensures nodes { OnTrue result (All (λ c. c.nodes < 1000) counts.now) }
    ensures tets { OnTrue result (All (λ c. c.tets < 1000) counts.now) }
{
    counts.iter().all(|c| c.nodes < 1000 && c.tets < 1000)
}

fn offsets_of(alloc: Global, states: &States) -> Option<Offsets>
    requires { ArePadded states.now.dims states.now.states }
    ensures { IfSome result (λ o. o ≡ layer_counts states.now.dims states.now.states) }
{
    let counts = counts_of(alloc, states)?;
    let counts = counts.as_slice();
    if counts.len() > 1000 || !are_small(counts) {
        return None;
    }
    Offsets::new(alloc, counts).ok()
}

// How many nodes and tetrahedra stand before a layer.
#[tactic(auto, using(vertex_numbers::proofs::LayerStarts::counts_len))]
fn before(states: &States, offsets: &Offsets, h: u32) -> Option<(u32, u64)>
    requires { offsets.now ≡ layer_counts states.now.dims states.now.states }
{
    if h < layers(states.dims()) {
        Some((offsets.node_start(h), offsets.tet_start(h)))
    } else {
        None
    }
}

#[test]
fn nodes_of_one_plus_vertex(rt: HostRuntime) {
    let states = one_plus(rt.alloc()).expect(&rt, "states");
    let dims = states.dims();
    for key in 0..8 * vertex_count(dims) {
        let mut source = &states;
        assert_eq!(rt; used(&mut source, dims, key), KEYS.contains(&key));
    }
    let v = vertex_of(dims, 17).expect(&rt, "a vertex");
    let mut source = &states;
    assert_eq!(rt; nodes_at(&mut source, dims, v), 255);
}

#[test]
fn layers_of_one_plus_vertex(rt: HostRuntime) {
    let alloc = rt.alloc();
    let states = one_plus(alloc).expect(&rt, "states");
    let counts = counts_of(alloc, &states).expect(&rt, "counts");
    let mut layers = 0usize;
    for (count, row) in counts.as_slice().iter().zip(LAYERS.lines()) {
        let [h, nodes, tets] = naturals::<3>(row).expect(&rt, row);
        let expected = LayerCount {
            h,
            nodes,
            tets: u64::from(tets),
        };
        assert_eq!(rt; *count, expected, "at {row}");
        layers = layers.wrapping_add(1);
    }
    assert_eq!(rt; (layers, counts.len()), (5, 5));
}

#[test]
fn numbers_of_one_plus_vertex(rt: HostRuntime) {
    let alloc = rt.alloc();
    let states = one_plus(alloc).expect(&rt, "states");
    let offsets = offsets_of(alloc, &states).expect(&rt, "offsets");
    assert_eq!(rt; (offsets.nodes(), offsets.tets()), (15, 24));
    assert_eq!(rt; states.dims(), ONE);
    for row in BEFORE.lines() {
        let [h, nodes, tets] = naturals::<3>(row).expect(&rt, row);
        let expected = Some((nodes, u64::from(tets)));
        assert_eq!(rt; before(&states, &offsets, h), expected, "at {row}");
    }
    let starts = Starts::of_layer(alloc, &states, &offsets, 2).expect(&rt, "starts");
    let layout = Layout {
        dims: states.dims(),
        slab: 1,
    };
    let (first, end) = (layout.layer_start(2), layout.layer_start(3));
    for row in NUMBERS.lines() {
        let [key, number] = naturals::<2>(row).expect(&rt, row);
        assert!(rt; first <= key / 8 && key / 8 < end, "at {row}");
        assert!(rt; starts.used(key), "at {row}");
        assert_eq!(rt; starts.number(key), number, "at {row}");
    }
}
