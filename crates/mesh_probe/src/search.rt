ghost use Rattle.std.specs.Prelude.{◌≡◌, ◌≤◌, ◌<◌, ◌+◌, ◌^◌, ℕ, MatchOption, unsigned_abs};
ghost use Rattle.definitions.specs.Lattice.{vertex};
ghost use Rattle.definitions.specs.States.{IsShares};
ghost use Rattle.mesh_probe.specs.Found.{IsClear, IsFirstFound, IsFound, IsFoundInLayer, IsFoundInRow};
ghost use Rattle.mesh_probe.specs.Near.{StartsPair, StartsAxis};

use crate::Hold;
use crate::near::{axis_start, pair_start};
use crate::pieces::found_from;
use bcc_lattice::in_domain;
use samples::Field;
use snap_rule::Shares;
use st_base::{Ledger, Place, Vertex};

/// The first piece that holds a point, of those whose lowest vertex is `v`.
fn at_vertex<L: Ledger>(
    field: &Field,
    shares: Shares,
    point: Place,
    v: Vertex,
    ledger: &mut L,
) -> Option<Hold>
    requires limits { IsShares shares }
    requires room { L.count ledger.old + 24 < 2 ^ 64 }
    ensures found { MatchOption result (IsClear field.now shares point v) (λ q. IsFound field.now shares point q × (q.lowest ≡ v)) }
    ensures more { L.count ledger.old ≤ L.count ledger.new }
    ensures few { L.count ledger.new ≤ L.count ledger.old + 24 }
{
    if !in_domain(field.dims(), v) {
        return None;
    }
    match found_from(field, shares, point, v, ledger) {
        Some(found) => {
            let nodes = found.nodes;
            let weights = found.weights;
            Some(Hold {
                lowest: v,
                rank: found.rank,
                nodes,
                weights,
            })
        }
        None => None,
    }
}

/// The first one in row `y` of layer `h`, where the vertices that matter are at `x` and two further on.
fn in_row<L: Ledger>(
    field: &Field,
    shares: Shares,
    point: Place,
    h: u32,
    y: u32,
    ledger: &mut L,
) -> Option<Hold>
    requires limits { IsShares shares }
    requires x { unsigned_abs point.x < 2 ^ 40 }
    requires y { unsigned_abs point.y < 2 ^ 40 }
    requires z { unsigned_abs point.z < 2 ^ 40 }
    requires h { h ≤ 2 ^ 29 }
    requires room { L.count ledger.old + 48 < 2 ^ 64 }
    ensures found { MatchOption result ((x : ℕ) → IsClear field.now shares point (vertex h y x)) (IsFoundInRow field.now shares point h y) }
    ensures more { L.count ledger.old ≤ L.count ledger.new }
    ensures few { L.count ledger.new ≤ L.count ledger.old + 48 }
{
    let x = pair_start(point.x, h);
    if let Some(hold) = at_vertex(field, shares, point, Vertex { h, y, x }, ledger) {
        return Some(hold);
    }
    at_vertex(field, shares, point, Vertex { h, y, x: x + 2 }, ledger)
}

/// The first one in layer `h`.
fn in_layer<L: Ledger>(
    field: &Field,
    shares: Shares,
    point: Place,
    h: u32,
    ledger: &mut L,
) -> Option<Hold>
    requires limits { IsShares shares }
    requires x { unsigned_abs point.x < 2 ^ 40 }
    requires y { unsigned_abs point.y < 2 ^ 40 }
    requires z { unsigned_abs point.z < 2 ^ 40 }
    requires h { h ≤ 2 ^ 29 }
    requires room { L.count ledger.old + 96 < 2 ^ 64 }
    ensures found { MatchOption result ((y x : ℕ) → IsClear field.now shares point (vertex h y x)) (IsFoundInLayer field.now shares point h) }
    ensures more { L.count ledger.old ≤ L.count ledger.new }
    ensures few { L.count ledger.new ≤ L.count ledger.old + 96 }
{
    let y = pair_start(point.y, h);
    if let Some(hold) = in_row(field, shares, point, h, y, ledger) {
        return Some(hold);
    }
    in_row(field, shares, point, h, y + 2, ledger)
}

/// The first one of all: its layer is one of three.
pub fn first_found<L: Ledger>(
    field: &Field,
    shares: Shares,
    point: Place,
    ledger: &mut L,
) -> Option<Hold>
    requires limits { IsShares shares }
    requires x { unsigned_abs point.x < 2 ^ 40 }
    requires y { unsigned_abs point.y < 2 ^ 40 }
    requires z { unsigned_abs point.z < 2 ^ 40 }
    requires room { L.count ledger.old + 288 < 2 ^ 64 }
    ensures found { MatchOption result ((h y x : ℕ) → IsClear field.now shares point (vertex h y x)) (IsFirstFound field.now shares point) }
    ensures more { L.count ledger.old ≤ L.count ledger.new }
    ensures few { L.count ledger.new ≤ L.count ledger.old + 288 }
{
    let h = axis_start(point.z);
    if let Some(hold) = in_layer(field, shares, point, h, ledger) {
        return Some(hold);
    }
    if let Some(hold) = in_layer(field, shares, point, h + 1, ledger) {
        return Some(hold);
    }
    in_layer(field, shares, point, h + 2, ledger)
}
