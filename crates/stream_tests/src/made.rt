//! What the tests stream: surveys, and desks in memory.
ghost use Rattle.std.specs.Prelude.{◌≡◌, ◌≤◌, IfSome, false};
ghost use Rattle.command_line.specs.Grammar.{IsPlan};
ghost use Rattle.slab_work.specs.Surveyed.{AreKept};
ghost use Rattle.stream_write.specs.Streams.{IsMeshFile};

use bcc_lattice::vertex_count;
use dihedral::Extremes;
use node_ele_write::{PutFault, put_all};
use samples::Field;
use slab_work::{Plan, Survey, survey};
use snap_rule::Shares;
use st_base::{Desk, Frame, Gate, OpenGate, Port, Tally};
use std::alloc::Global;
use std::thread::Threads;
use stream_write::stream_slabs;

/// So many workers, and slabs of two layers.
pub fn plan_of(workers: u32) -> Option<Plan>
    ensures { IfSome result IsPlan }
{
    if 1 <= workers && workers <= 64 {
        Some(Plan { workers, slab: 1 })
    } else {
        None
    }
}

/// The survey of a field of at most 64 samples on each axis.
pub fn survey_of<'f, R: Threads + Sync>(
    rt: &R,
    alloc: Global,
    field: &'f Field,
    plan: Plan,
) -> Option<Survey<'f>>
    requires { IsPlan plan }
    ensures { IfSome result (λ s. AreKept 1 s.subject.field.dims) }
{
    let dims = field.dims();
    if dims.nx > 64 || dims.ny > 64 || dims.nz > 64 {
        return None;
    }
    let shares = Shares::new(1023, 1687)?;
    let _ = vertex_count(dims);
    let Ok(ledgers) = Vec::from_elem(alloc, Tally::new(), plan.workers as usize) else {
        return None;
    };
    match survey(rt, alloc, field, shares, plan, &OpenGate, ledgers) {
        Ok((survey, _)) => Some(survey),
        Err(_) => None,
    }
}

/// Opens a port, and streams the lines of a survey to it behind a first line.
pub fn stream<D: Desk + Send, G: Gate + Sync, R: Threads + Sync>(
    rt: &R,
    alloc: Global,
    survey: &Survey,
    numbering: u32,
    plan: Plan,
    gate: &G,
    port: Port,
    head: &[u8],
    desk: &mut D,
) -> Result<Option<Extremes>, PutFault>
    requires mesh_file { IsMeshFile port }
    requires numbering { numbering ≤ 1 }
    requires closed { (D.ports desk.old port).is_open ≡ false }
    requires plan { IsPlan plan }
    requires sizes { AreKept 1 survey.now.subject.field.dims }
{
    let Ok(()) = desk.open_output(port, b"out") else {
        return Err(PutFault::WriteFault);
    };
    let Ok(()) = put_all(desk, port, head) else {
        return Err(PutFault::WriteFault);
    };
    let frame = Frame {
        step: 1,
        world: None,
    };
    stream_slabs(rt, alloc, survey, frame, numbering, plan, gate, port, desk)
}
