ghost use Rattle.std.specs.Prelude.{◌≡◌, ◌+◌, ◌-◌, ◌*◌, ◌/◌, ◌^◌, ◌<◌, ◌≤◌, if◌then◌else◌, unsigned_abs, IfSome};
ghost use Rattle.definitions.specs.Cuts.{cut_between};
ghost use Rattle.definitions.specs.Lattice.{is_long};
ghost use Rattle.definitions.specs.Lists.{lesser};
ghost use Rattle.definitions.specs.States.{direction_of, is_nearer, is_up};
ghost use Rattle.snap_laws.specs.Around.{distance_of_cut, rank};
ghost use Rattle.snap_rule.specs.Near.{AreSmall, AreThresholds, IsNearCut, IsThreshold, cut_here, factor_of, is_near_by, is_reached};

use crate::Shares;
use cut_points::reach2;
use definitions::Near;

/// The direction of an edge 1 to 14 at a vertex.
pub fn direction_of(edge: u8) -> u8
    ensures { result ≡ direction_of edge }
{
    if edge <= 7 { edge } else { edge - 7 }
}

fn is_long(direction: u8) -> bool
    ensures { result ≡ is_long direction }
{
    direction <= 2 || direction == 7
}

/// Where the key of the cut on an edge stands among those of the cuts at its vertex.
fn rank(edge: u8) -> u32
    requires { edge ≤ 14 }
    ensures value { result ≡ rank edge }
{
    if edge <= 7 {
        edge as u32 + 7
    } else {
        15 - edge as u32
    }
}

/// The distance of cut `k` of an edge from the vertex.
fn distance(edge: u8, k: u16) -> u16
    requires { k ≤ 4096 }
    ensures value { result ≡ distance_of_cut edge k }
    ensures small { result ≤ 4096 }
{
    if edge <= 7 { k } else { 4096 - k }
}

/// What tells which cuts on edges of one length are near a vertex, with no division: the value at the
/// other end times `factor` is above `least` there, or on an edge downwards at least as much.
#[derive(Clone, Copy)]
pub struct Threshold {
    factor: i64,
    least: i64,
}

/// The thresholds of a vertex on long and on short edges.
#[derive(Clone, Copy)]
pub struct Thresholds {
    long: Threshold,
    short: Threshold,
}

/// By what the value at the other end of an edge is multiplied.
#[tactic(auto, using(crate::proofs::Thresholds::factor_below, crate::proofs::Thresholds::factor_above))]
fn factor_of(own: i64, share: u16) -> i64
    requires { share ≤ 2047 }
    ensures value { result ≡ factor_of own share }
    ensures small { unsigned_abs result ≤ 2 ^ 12 }
{
    let factor = (2 * share + 1) as i64;
    if own < 0 { factor } else { -factor }
}

impl Threshold {
    /// The threshold of a vertex with a value, on edges of which a share is near.
    fn new(own: i64, share: u16) -> Threshold
        requires own { unsigned_abs own ≤ 2 ^ 40 }
        requires share { share ≤ 2047 }
        ensures value { IsThreshold own share result }
        ensures small { unsigned_abs result.factor ≤ 2 ^ 12 }
    {
        Threshold {
            factor: factor_of(own, share),
            least: (own.unsigned_abs() * (8191 - 2 * share) as u64) as i64,
        }
    }

    /// Whether the value at the other end of an edge makes a near cut.
    fn is_reached(self, other: i64, edge: u8) -> bool
        requires factor { unsigned_abs self.factor ≤ 2 ^ 12 }
        requires other { unsigned_abs other ≤ 2 ^ 40 }
        ensures { result ≡ is_reached self other edge }
    {
        let product = self.factor * other;
        if edge <= 7 {
            self.least < product
        } else {
            self.least <= product
        }
    }
}

impl Thresholds {
    /// The thresholds of a vertex with a value.
    pub fn new(shares: Shares, own: i64) -> Thresholds
        requires own { unsigned_abs own ≤ 2 ^ 40 }
        ensures values { AreThresholds own shares result }
        ensures small { AreSmall result }
    {
        Thresholds {
            long: Threshold::new(own, shares.share(true)),
            short: Threshold::new(own, shares.share(false)),
        }
    }

    fn on(self, edge: u8) -> Threshold
        ensures { result ≡ (if is_long (direction_of edge) then self.long else self.short) }
    {
        if is_long(direction_of(edge)) {
            self.long
        } else {
            self.short
        }
    }
}

/// The number of the cut between values of these sizes.
#[tactic(auto, unfolding(definitions::specs::Cuts::cut_between), using(crate::proofs::Divisions::quotient_small))]
fn cut_between(lower: u64, upper: u64) -> u16
    requires some { 0 < lower + upper }
    requires lower { lower ≤ 2 ^ 40 }
    requires upper { upper ≤ 2 ^ 40 }
    ensures value { result ≡ cut_between lower upper }
    ensures small { result ≤ 4096 }
{
    ((8192 * lower + lower + upper) / (2 * (lower + upper))) as u16
}

/// The number of the cut on an edge, from the sizes of the values at the vertex and at the other end.
fn cut_on(edge: u8, own: u64, other: u64) -> u16
    requires some { 0 < own }
    requires own { own ≤ 2 ^ 40 }
    requires other { other ≤ 2 ^ 40 }
    ensures value { result ≡ (if is_up edge then cut_between own other else cut_between other own) }
    ensures small { result ≤ 4096 }
{
    if edge <= 7 {
        cut_between(own, other)
    } else {
        cut_between(other, own)
    }
}

/// The cut on edge 1 to 14 of a vertex, from its value and the one at the other end.
pub fn cut(own: i64, other: i64, edge: u8) -> Near
    requires edge_low { 1 ≤ edge }
    requires edge_high { edge ≤ 14 }
    requires some { 0 < unsigned_abs own }
    requires own { unsigned_abs own ≤ 2 ^ 40 }
    requires other { unsigned_abs other ≤ 2 ^ 40 }
    ensures value { result ≡ cut_here own other edge }
    ensures cut { IsNearCut result }
{
    let long = is_long(direction_of(edge));
    let k = cut_on(edge, own.unsigned_abs(), other.unsigned_abs());
    Near {
        edge,
        k,
        square: reach2(long, distance(edge, k)),
        key: rank(edge),
    }
}

fn is_nearer(a: Near, b: Near) -> bool
    ensures { result ≡ is_nearer a b }
{
    a.square < b.square || (a.square == b.square && a.key < b.key)
}

pub fn nearer(best: Option<Near>, near: Near) -> Near
    requires best { IfSome best IsNearCut }
    requires near { IsNearCut near }
    ensures least { result ≡ lesser is_nearer best near }
    ensures cut { IsNearCut result }
{
    match best {
        None => near,
        Some(held) => if is_nearer(near, held) { near } else { held },
    }
}

/// Whether the value at the other end of edge 1 to 14 makes a near cut.
#[inline(always)]
pub fn is_near(thresholds: Thresholds, other: i64, edge: u8) -> bool
    requires thresholds { AreSmall thresholds }
    requires other { unsigned_abs other ≤ 2 ^ 40 }
    ensures { result ≡ is_near_by thresholds other edge }
{
    thresholds.on(edge).is_reached(other, edge)
}
