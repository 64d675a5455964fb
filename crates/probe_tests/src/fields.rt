ghost use Rattle.std.specs.Prelude.{IfSome, true, unsigned_abs, ◌<◌, ◌^◌, ◌≡◌};

use bcc_lattice::vertex_count;
use command_line::Plan;
use mesh_probe::{hold_number, probe, probe_line};
use samples::Field;
use snap_rule::Shares;
use st_base::{OpenGate, Place, Tally};
use std::alloc::Global;
use std::thread::Threads;
use survey::{Survey, survey};

/// The survey of a field by one worker.
pub fn survey_of<'f, R: Threads + Sync>(
    rt: &R,
    alloc: Global,
    field: &'f Field,
    shares: Shares,
) -> Option<Survey<'f>> {
    let plan = Plan {
        workers: 1,
        slab: 4,
    };
    let _ = vertex_count(field.dims());
    let Ok(ledgers) = Vec::from_elem(alloc, Tally::new(), 1) else {
        return None;
    };
    match survey(rt, alloc, field, shares, plan, &OpenGate, ledgers) {
        Ok((survey, _)) => Some(survey),
        Err(_) => None,
    }
}

/// A tetrahedron that holds a point: its number in the mesh, and the weights of its nodes at the point.
#[derive(Clone, Copy, Debug, PartialEq, Eq)]
pub struct Held {
    pub number: u64,
    pub weights: [u64; 4],
}

fn is_small(z: i64) -> bool
    ensures { result ≡ true → unsigned_abs z < 2 ^ 40 }
{
    z.unsigned_abs() < 1 << 40
}

/// What is told of a point, and how many states were made for it; none where the point is too far away.
pub fn held_at(survey: &Survey, point: Place) -> Option<(Option<Held>, u64)> {
    if !is_small(point.x) || !is_small(point.y) || !is_small(point.z) {
        return None;
    }
    let field = survey.field();
    let shares = survey.shares();
    let mut ledger = Tally::new();
    let Some(hold) = probe(field, shares, point, &mut ledger) else {
        return Some((None, ledger.count()));
    };
    let number = hold_number(field, shares, survey.states(), survey.offsets(), &hold);
    let weights = hold.weights;
    Some((Some(Held { number, weights }), ledger.count()))
}

/// The line that tells of a point; none where the point is too far away, or memory runs out.
pub fn line_at(alloc: Global, survey: &Survey, point: Place) -> Option<Vec<u8>> {
    if !is_small(point.x) || !is_small(point.y) || !is_small(point.z) {
        return None;
    }
    let field = survey.field();
    probe_line(
        alloc,
        field,
        survey.shares(),
        survey.states(),
        survey.offsets(),
        point,
    )
    .ok()
}
