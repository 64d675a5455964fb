ghost use Rattle.std.specs.Prelude.{◌≡◌, ◌≤◌, ◌<◌, ◌*◌, ◌/◌, ◌∷◌, true, length, map, List};
ghost use Rattle.std.specs.List.{range_with_len};
ghost use Rattle.definitions.specs.declared.State.{State};
ghost use Rattle.definitions.specs.Lattice.{InDomain, IsDims, id, vertices, vertex_at};
ghost use Rattle.definitions.specs.Mesh.{ArePadded, all_pieces, occurs};
ghost use Rattle.definitions.specs.States.{sign_of_state};
ghost use Rattle.vertex_numbers.specs.Around.{signs_towards, crosses, is_node, node_towards, nodes_of};
ghost use Rattle.vertex_numbers.specs.Bits.{bits};
ghost use Rattle.vertex_numbers.specs.Sources.{Agrees, KnowsAround};

use crate::StateSource;
use crate::around::{Around, has_plus, has_plus_towards, lacks_plus, sign_towards, signs_around};
use bcc_lattice::{sign_of, vertex_of};
use definitions::Sign;
use st_base::{Dims, Vertex};

/// Whether one is Plus and the other Minus.
fn crosses(own: Sign, other: Option<Sign>) -> bool
    ensures { result ≡ crosses own other }
{
    match own {
        Sign::Plus => matches!(other, Some(Sign::Minus)),
        Sign::Minus => matches!(other, Some(Sign::Plus)),
        Sign::Zero => false,
    }
}

/// Whether a vertex with these signs around it is a node.
fn is_node<S: StateSource>(from: &mut S, dims: Dims, v: Vertex, around: &Around) -> bool
    requires dims { IsDims dims }
    requires sizes { S.sizes from.old ≡ dims }
    requires domain { InDomain dims v }
    requires known { KnowsAround dims (S.knows from.old) v.h }
    requires own { around.now.own ≡ sign_of_state (S.told from.old v) }
    requires up { around.now.up ≡ signs_towards dims (S.told from.old) v true }
    ensures node { result ≡ node_towards dims (S.told from.old) v 0 }
    ensures same { S.unchanged from.old from.new }
{
    match around.own {
        Sign::Minus => false,
        Sign::Plus => true,
        Sign::Zero => has_plus(&around.up) || has_plus_towards(from, dims, v, false),
    }
}

/// The nodes at a vertex, as bits: itself, and the cuts on its edges upwards.
fn with_cuts(is_node: bool, around: &Around) -> u8
    ensures { result ≡ bits (is_node ∷ map (crosses around.now.own) around.now.up) }
{
    let own = around.own;
    let [a, b, c, d, e, f, g] = around.up;
    let high = u8::from(crosses(own, d))
        + 2 * u8::from(crosses(own, e))
        + 4 * u8::from(crosses(own, f))
        + 8 * u8::from(crosses(own, g));
    let low = u8::from(is_node)
        + 2 * u8::from(crosses(own, a))
        + 4 * u8::from(crosses(own, b))
        + 8 * u8::from(crosses(own, c));
    low + 16 * high
}

/// The nodes at a vertex with these signs around it, as bits.
#[inline(always)]
pub fn nodes_around<S: StateSource>(from: &mut S, dims: Dims, v: Vertex, around: &Around) -> u8
    requires dims { IsDims dims }
    requires sizes { S.sizes from.old ≡ dims }
    requires domain { InDomain dims v }
    requires known { KnowsAround dims (S.knows from.old) v.h }
    requires own { around.now.own ≡ sign_of_state (S.told from.old v) }
    requires up { around.now.up ≡ signs_towards dims (S.told from.old) v true }
    ensures nodes { result ≡ bits (nodes_of dims (S.told from.old) v) }
    ensures same { S.unchanged from.old from.new }
{
    match around.own {
        Sign::Minus if lacks_plus(around) => 0,
        _ => {
            let is_node = is_node(from, dims, v, around);
            with_cuts(is_node, around)
        }
    }
}

/// Whether the node at a vertex in a direction occurs: the vertex itself in direction 0, and otherwise
/// the cut on its edge upwards.
pub fn is_used<S: StateSource>(from: &mut S, dims: Dims, v: Vertex, number: u8) -> bool
    requires dims { IsDims dims }
    requires sizes { S.sizes from.old ≡ dims }
    requires domain { InDomain dims v }
    requires known { KnowsAround dims (S.knows from.old) v.h }
    requires high { number ≤ 7 }
    ensures node { result ≡ node_towards dims (S.told from.old) v number }
    ensures same { S.unchanged from.old from.new }
{
    let own = sign_of(from.state(v));
    if number > 0 {
        return crosses(own, sign_towards(from, dims, v, true, number));
    }
    match own {
        Sign::Minus => false,
        Sign::Plus => true,
        Sign::Zero => {
            has_plus_towards(from, dims, v, true) || has_plus_towards(from, dims, v, false)
        }
    }
}

/// The nodes at a vertex: bit 0 is the vertex itself, and bits 1 to 7 are the cuts on its edges in these
/// directions.
#[inline]
pub fn nodes_at<S: StateSource>(from: &mut S, dims: Dims, v: Vertex) -> u8
    requires dims { IsDims dims }
    requires sizes { S.sizes from.old ≡ dims }
    requires domain { InDomain dims v }
    requires known { KnowsAround dims (S.knows from.old) v.h }
    ensures nodes { (ss : List State) → ArePadded dims ss → Agrees dims (S.knows from.old) (S.told from.old) ss
        → result ≡ bits (map (occurs (all_pieces dims ss)) (range_with_len (8 * id dims v) 8)) }
    ensures same { S.unchanged from.old from.new }
{
    let around = signs_around(from, dims, v);
    nodes_around(from, dims, v, &around)
}

/// Whether the node with a key occurs in the mesh.
pub fn used<S: StateSource>(from: &mut S, dims: Dims, key: u32) -> bool
    requires dims { IsDims dims }
    requires sizes { S.sizes from.old ≡ dims }
    requires key { key / 8 < length (vertices dims) }
    requires known { KnowsAround dims (S.knows from.old) (vertex_at dims (key / 8)).h }
    ensures value { (ss : List State) → ArePadded dims ss → Agrees dims (S.knows from.old) (S.told from.old) ss
        → result ≡ occurs (all_pieces dims ss) key }
    ensures same { S.unchanged from.old from.new }
{
    let Some(v) = vertex_of(dims, key / 8) else {
        unreachable!()
    };
    is_used(from, dims, v, (key % 8) as u8)
}
