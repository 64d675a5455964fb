ghost use Rattle.std.specs.Prelude.{◌≡◌, ◌+◌, ◌≤◌, ◌<◌, ◌^◌, ℤ, pos, negsuc, ◌-ℤ◌, ◌+ℤ◌, ◌*ℤ◌, ◌<ℤ◌, unsigned_abs, false};
ghost use Rattle.definitions.specs.Cuts.{scale};
ghost use Rattle.definitions.specs.Lattice.{step, directed};
ghost use Rattle.definitions.specs.Places.{along, lattice_place, cut_place, state_place};
ghost use Rattle.definitions.specs.States.{IsState};
ghost use Rattle.bcc_lattice.specs.Bounds.{IsSmallPlace};
ghost use Rattle.bcc_lattice.specs.Directions.{IsSmallStep};

use crate::Dir;
use crate::vertices::step_of;
use definitions::State;
use st_base::{Place, Vertex};

/// The place of a vertex on the lattice.
fn lattice_place(v: Vertex) -> Place
    ensures place { result ≡ lattice_place v }
    ensures small { IsSmallPlace (2 ^ 44) result }
{
    Place {
        x: (v.x as i64 - 2) * 4096,
        y: (v.y as i64 - 2) * 4096,
        z: (v.h as i64 - 2) * 4096,
    }
}

/// A coordinate moved by some parts of a step, forwards or backwards.
fn moved(at: i64, step: i32, parts: i64) -> i64
    requires at { unsigned_abs at ≤ 2 ^ 44 }
    requires step { IsSmallStep step }
    requires parts { unsigned_abs parts ≤ 2 ^ 16 }
    ensures value { result ≡ at +ℤ (step *ℤ parts) }
    ensures small { unsigned_abs result ≤ 2 ^ 45 }
{
    at + step as i64 * parts
}

/// The lattice place of a vertex, moved by some parts of the step in a direction.
fn place_along(v: Vertex, dir: Dir, parts: i64) -> Place
    requires { unsigned_abs parts ≤ 2 ^ 16 }
    ensures x { result.x ≡ (lattice_place v).x +ℤ ((step dir).x *ℤ parts) }
    ensures y { result.y ≡ (lattice_place v).y +ℤ ((step dir).y *ℤ parts) }
    ensures z { result.z ≡ (lattice_place v).z +ℤ ((step dir).h *ℤ parts) }
    ensures small { IsSmallPlace (2 ^ 45) result }
{
    let step = step_of(dir);
    let from = lattice_place(v);
    Place {
        x: moved(from.x, step.x, parts),
        y: moved(from.y, step.y, parts),
        z: moved(from.z, step.h, parts),
    }
}

/// The place of cut `k` of the edge from a vertex in a direction, `k` being counted in 4096ths of the
/// edge from that vertex.
pub fn cut_place(lower: Vertex, dir: Dir, k: u16) -> Place
    ensures place { result ≡ cut_place lower dir k }
    ensures small { IsSmallPlace (2 ^ 45) result }
{
    place_along(lower, dir, k as i64)
}

/// The place of cut `k` of the edge up to a vertex in a direction.
fn cut_place_below(upper: Vertex, dir: Dir, k: u16) -> Place
    ensures place { result ≡ along (along (lattice_place upper) (directed false (step dir)) scale) (step dir) k }
    ensures small { IsSmallPlace (2 ^ 45) result }
{
    place_along(upper, dir, k as i64 - 4096)
}

/// The place of a vertex in a state: its lattice place, or the cut that it was moved to.
pub fn place(v: Vertex, state: State) -> Place
    requires { IsState state }
    ensures place { result ≡ state_place v state }
    ensures small { IsSmallPlace (2 ^ 45) result }
{
    let State::Zero { edge, k } = state else {
        return lattice_place(v);
    };
    if edge <= 7 {
        match Dir::new(edge) {
            Some(dir) => cut_place(v, dir, k),
            None => lattice_place(v),
        }
    } else {
        let Some(dir) = Dir::new(edge - 7) else {
            unreachable!()
        };
        cut_place_below(v, dir, k)
    }
}
