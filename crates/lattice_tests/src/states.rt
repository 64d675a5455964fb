ghost use Rattle.std.specs.Prelude.{length, ◌<◌, ◌^◌};
ghost use Rattle.definitions.specs.Lattice.{vertices};

use crate::fields::field_of;
use crate::rows::{naturals, part};
use bcc_lattice::{code, in_domain};
use samples::Field;
use snap_rule::{Shares, all_states, vertex_state};
use st_base::{Tally, Vertex};
use std::alloc::Global;

// Sizes and samples of images, shares of long and of short edges, vertices by h, y and x, and the codes of their states.
const STATES: &str = "2 2 2 | 2 2 2 2 -2 -2 -2 -2 | 1023 1687 at 3 3 3 -> 196662
2 1 1 | 1 1 | 1023 1687 at 1 1 3 -> 87382
2 1 1 | 1 -20000 | 0 0 at 2 2 2 -> 262194
1 1 1 | 1 | 1023 1687 at 2 2 2 -> 3
1 1 1 | 1 | 1023 1687 at 0 0 0 -> 1";

// Numbers of 4096ths of long and of short edges, and whether they are shares.
const SHARES: &str = "1023 2047 -> 1
1024 0 -> 0
0 2048 -> 0";

// The code of the state of a vertex by itself, where it is the one that it has among the states of all.
fn word(alloc: Global, field: &Field, shares: Shares, v: Vertex) -> Option<u64>
    requires { length (vertices field.now.dims) < 2 ^ 32 }
{
    let mut ledger = Tally::new();
    let states = all_states(alloc, field, shares, &mut ledger).ok()?;
    if !in_domain(field.dims(), v) || !in_domain(states.dims(), v) {
        return None;
    }
    let state = vertex_state(field, shares, v, &mut ledger);
    if states.state(v) == state {
        Some(code(state))
    } else {
        None
    }
}

#[test]
fn states_of_small_images(rt: HostRuntime) {
    let alloc = rt.alloc();
    for row in STATES.lines() {
        let (sizes, rest) = part(row);
        let (samples, rest) = part(rest);
        let [long, short, h, y, x, expected] = naturals::<6>(rest).expect(&rt, row);
        let field = field_of(alloc, sizes, samples).expect(&rt, row);
        let shares = shares(long, short).expect(&rt, row);
        let found = word(alloc, &field, shares, Vertex { h, y, x });
        assert_eq!(rt; found, Some(u64::from(expected)), "at {row}");
    }
}

fn shares(long: u32, short: u32) -> Option<Shares> {
    Shares::new(u16::try_from(long).ok()?, u16::try_from(short).ok()?)
}

#[test]
fn limits_of_shares(rt: HostRuntime) {
    for row in SHARES.lines() {
        let [long, short, are_shares] = naturals::<3>(row).expect(&rt, row);
        assert_eq!(rt; shares(long, short).is_some(), are_shares == 1, "at {row}");
    }
}
