ghost use Rattle.std.specs.Prelude.{◌≡◌, ◌+◌, ◌^◌, ◌<◌, true, All, IfOk, IsTrue, OnErr, OnOk, length, map, slice_index};
ghost use Rattle.definitions.specs.Lattice.{IsDims, InDomain, id, vertices};
ghost use Rattle.definitions.specs.Mesh.{state_at};
ghost use Rattle.definitions.specs.States.{IsState, code, sign_of_state, state_of, states};
ghost use Rattle.snap_rule.specs.Codes.{is_code, state_of_code};

use crate::Shares;
use crate::layers::write_all;
use bcc_lattice::{id, vertex_count};
use definitions::{Sign, State};
use samples::Field;
use st_base::{Dims, Ledger, NoMemory, Vertex};
use std::alloc::Global;
use std::marker::Model;

/// The state of a word that is a code.
pub fn decode(word: u64) -> State
    requires { IsTrue (is_code word) }
    ensures state { result ≡ state_of_code word }
    ensures is_state { IsState result }
{
    match word {
        1 => State::Minus,
        3 => State::Plus,
        _ => State::Zero {
            edge: (word / 4 % 16) as u8,
            k: (word / 64) as u16,
        },
    }
}

/// The states of all vertices, each kept as its code. Contracts see the sizes and the list of states.
///
/// There are as many words as vertices, and each word is the code of a state.
#[derive(Drop)]
pub struct States {
    dims: Dims,
    codes: Vec<u64>,
}

impl Model for States {
    ghost use Rattle.std.specs.Prelude.{map};
    ghost use Rattle.snap_rule.specs.Codes.{AreCodes, StateList, state_of_code};

    ghost Value = { StateList };

    ghost view = { λ s. record { dims = s.dims; states = map state_of_code s.codes.items } };

    ghost invariant = { λ s. AreCodes s.dims s.codes.items };
}

impl States {
    ghost use Rattle.snap_rule.specs.Codes.{AreCodes, StateList};

    /// The states of these codes, one for each vertex in order.
    pub fn of_codes(dims: Dims, codes: Vec<u64>) -> States
        requires { AreCodes dims codes.items }
        ensures { result ≡ record { dims = dims; states = map state_of_code codes.items } }
    {
        States { dims, codes }
    }

    /// The sizes.
    pub fn dims(&self) -> Dims
        ensures dims { result ≡ self.now.dims }
        ensures sizes { IsDims result }
    {
        self.dims
    }

    /// The state of a vertex.
    pub fn state(&self, v: Vertex) -> State
        requires { InDomain self.now.dims v }
        ensures state { result ≡ state_at self.now.states (id self.now.dims v) }
        ensures is_state { IsState result }
    {
        decode(word(&self.codes, id(self.dims, v) as usize))
    }

    /// The sign of the vertex of an id.
    #[inline]
    pub fn sign(&self, id: u32) -> Sign
        requires { id < length (vertices self.now.dims) }
        ensures { result ≡ sign_of_state (state_at self.now.states id) }
    {
        sign_of_code(word(&self.codes, id as usize))
    }

    /// Whether the vertex of an id has a sign.
    #[inline]
    pub fn has_sign(&self, id: u32, sign: Sign) -> bool
        requires { id < length (vertices self.now.dims) }
        ensures { result ≡ true → sign_of_state (state_at self.now.states id) ≡ sign }
    {
        has_sign(word(&self.codes, id as usize), sign)
    }

    /// The state of the vertex of an id.
    #[inline(always)]
    pub fn state_by_id(&self, id: u32) -> State
        requires { id < length (vertices self.now.dims) }
        ensures state { result ≡ state_at self.now.states id }
        ensures is_state { IsState result }
    {
        decode(word(&self.codes, id as usize))
    }
}

/// The sign of the state of a word that is a code.
#[inline]
fn sign_of_code(word: u64) -> Sign
    requires { IsTrue (is_code word) }
    ensures { result ≡ sign_of_state (state_of_code word) }
{
    match word {
        1 => Sign::Minus,
        3 => Sign::Plus,
        _ => Sign::Zero,
    }
}

/// Whether the state of a word that is a code has a sign.
#[inline]
fn has_sign(word: u64, sign: Sign) -> bool
    requires { IsTrue (is_code word) }
    ensures { result ≡ true → sign_of_state (state_of_code word) ≡ sign }
{
    match sign {
        Sign::Minus => word == 1,
        Sign::Plus => word == 3,
        Sign::Zero => word != 1 && word != 3,
    }
}

fn word(words: &[u64], n: usize) -> u64
    requires within { n < length words.now }
    requires codes { All (λ word. IsTrue (is_code word)) words.now }
    ensures word { result ≡ slice_index words.now n }
    ensures code { IsTrue (is_code result) }
{
    words[n]
}

/// The codes of all vertices, in order.
fn codes_of(alloc: Global, field: &Field, shares: Shares) -> Result<Vec<u64>, NoMemory>
    ensures { IfOk result (λ codes. codes.items ≡ map (λ v. code (state_of field.now shares v)) (vertices field.now.dims)) }
{
    let count = vertex_count(field.dims());
    let Ok(mut codes) = vec![in alloc; 0u64; count as usize] else {
        return Err(NoMemory);
    };
    write_all(field, shares, codes.as_mut_slice());
    Ok(codes)
}

/// The states of all vertices, which the ledger counts. NoMemory leaves the ledger as it was.
///
/// ```rust
/// let shares = Shares::new(1023, 1687).expect(&rt, "shares");
/// let states = all_states(alloc, &field, shares, &mut Tally::new())?;
/// let state = states.state(Vertex { h: 3, y: 3, x: 3 });
/// ```
pub fn all_states<L: Ledger>(
    alloc: Global,
    field: &Field,
    shares: Shares,
    ledger: &mut L,
) -> Result<States, NoMemory>
    requires room { L.count ledger.old + length (vertices field.now.dims) < 2 ^ 64 }
    ensures dims { IfOk result (λ s. s.dims ≡ field.now.dims) }
    ensures states { IfOk result (λ s. s.states ≡ states field.now shares) }
    ensures count { OnOk result (L.count ledger.new ≡ L.count ledger.old + length (vertices field.now.dims)) }
    ensures unchanged { OnErr result (L.count ledger.new ≡ L.count ledger.old) }
{
    let dims = field.dims();
    let codes = codes_of(alloc, field, shares)?;
    ledger.add(vertex_count(dims) as u64);
    Ok(States::of_codes(dims, codes))
}
