ghost use Rattle.std.specs.Prelude.{◌≡◌, ◌≢◌, ◌<◌, ◌^◌, MatchOption};
ghost use Rattle.definitions.specs.declared.State.{State};
ghost use Rattle.definitions.specs.States.{IsState, code as code_of, sign_of_state};

use definitions::{Sign, State};

/// The sign of a state.
#[inline]
pub fn sign_of(state: State) -> Sign
    ensures { result ≡ sign_of_state state }
{
    match state {
        State::Minus => Sign::Minus,
        State::Plus => Sign::Plus,
        State::Zero { .. } => Sign::Zero,
    }
}

/// The word of a state: 1 for Minus, 3 for Plus, and `2 + 4 * edge + 64 * k` for Zero.
pub fn code(state: State) -> u64
    requires { IsState state }
    ensures code { result ≡ code_of state }
    ensures some { 0 < result }
    ensures small { result < 2 ^ 19 }
{
    match state {
        State::Minus => 1,
        State::Plus => 3,
        State::Zero { edge, k } => 2 + 4 * edge as u64 + 64 * k as u64,
    }
}

/// The state of a word; none where it is the word of no state.
pub fn state_of(code: u64) -> Option<State>
    ensures { MatchOption result ((s : State) → IsState s → code_of s ≢ code) (λ s. IsState s × (code_of s ≡ code)) }
{
    if code == 1 {
        return Some(State::Minus);
    }
    if code == 3 {
        return Some(State::Plus);
    }
    let edge = code / 4 % 16;
    let k = code / 64;
    if code % 4 != 2 || edge > 14 || k > 4096 || (edge == 0 && k != 0) {
        return None;
    }
    Some(State::Zero {
        edge: edge as u8,
        k: k as u16,
    })
}
