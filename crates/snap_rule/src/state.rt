ghost use Rattle.std.specs.Int.{bit_at, from_bool};
ghost use Rattle.std.specs.Prelude.{◌≡◌, ℕ, ◌+◌, ◌^◌, ◌<◌, ◌≤◌, pos, unsigned_abs, is_some, IfSome, length, slice_index_or, All};
ghost use Rattle.definitions.specs.Lists.{least_by};
ghost use Rattle.definitions.specs.States.{is_nearer, snapped, IsState};
ghost use Rattle.definitions.specs.Values.{sign_of};
ghost use Rattle.snap_laws.specs.Around.{near_here, nears_here, state_here, value_on};
ghost use Rattle.snap_rule.specs.Near.{IsNearCut, IsSmallValue};

use crate::Shares;
use crate::near::{Thresholds, cut, is_near, nearer};
use definitions::{Near, State};

fn number(numbers: &[i64], n: usize) -> i64
    requires within { n < length numbers.now }
    requires small { All IsSmallValue numbers.now }
    ensures value { result ≡ slice_index_or numbers.now n (pos 0) }
    ensures small { unsigned_abs result ≤ 2 ^ 40 }
{
    numbers[n]
}

/// Which of edges 1 to 14 have near cuts, as bits 0 to 13.
#[inline(always)]
fn near_edges(shares: Shares, own: i64, values: &[i64]) -> u32
    requires len { length values.now ≡ 14 }
    requires some { 0 < unsigned_abs own }
    requires own { unsigned_abs own ≤ 2 ^ 40 }
    requires small { All IsSmallValue values.now }
    ensures each { (n : ℕ) → n < 14 → bit_at result n ≡ from_bool (is_some (near_here shares own (value_on values.now (1 + n)) (1 + n))) }
    ensures none { (n : ℕ) → 14 ≤ n → bit_at result n ≡ 0 }
{
    let thresholds = Thresholds::new(shares, own);
    let mut near = 0u32;
    for n in 0..14u8 {
        if is_near(thresholds, number(values, n as usize), 1 + n) {
            near |= 1 << n;
        }
    }
    near
}

/// The nearest near cut, from the values at the other ends of edges 1 to 14.
fn nearest(shares: Shares, own: i64, values: &[i64]) -> Option<Near>
    requires len { length values.now ≡ 14 }
    requires some { 0 < unsigned_abs own }
    requires own { unsigned_abs own ≤ 2 ^ 40 }
    requires small { All IsSmallValue values.now }
    ensures least { result ≡ least_by is_nearer (nears_here shares own values.now) }
    ensures cut { IfSome result IsNearCut }
{
    let mut left = near_edges(shares, own, values);
    let mut best: Option<Near> = None;
    while left != 0 {
        let n = left.trailing_zeros() as u8;
        left &= !(1 << n);
        best = Some(nearer(best, cut(own, number(values, n as usize), 1 + n)));
    }
    best
}

/// What a vertex is with its nearest near cut.
fn snapped(value: i64, near: Option<Near>) -> State
    requires { IfSome near IsNearCut }
    ensures state { result ≡ snapped (sign_of value) near }
    ensures is_state { IsState result }
{
    if value == 0 {
        return State::Zero { edge: 0, k: 0 };
    }
    match near {
        Some(near) => State::Zero {
            edge: near.edge,
            k: near.k,
        },
        None => if value > 0 { State::Plus } else { State::Minus },
    }
}

/// The state of a vertex from its value and those at the other ends of edges 1 to 14, where an edge that
/// is not there has the value 0.
pub fn state_of_values(shares: Shares, own: i64, values: &[i64]) -> State
    requires len { length values.now ≡ 14 }
    requires own { unsigned_abs own ≤ 2 ^ 40 }
    requires small { All IsSmallValue values.now }
    ensures state { result ≡ state_here shares own values.now }
    ensures is_state { IsState result }
{
    if own == 0 {
        snapped(own, None)
    } else {
        snapped(own, nearest(shares, own, values))
    }
}
