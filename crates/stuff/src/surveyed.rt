ghost use Rattle.std.specs.Prelude.{◌≡◌, ◌+◌, ◌<◌, ◌≤◌, ◌^◌, All, IfOk, None, length};
ghost use Rattle.definitions.specs.Mesh.{mesh};
ghost use Rattle.definitions.specs.States.{IsShares};
ghost use Rattle.command_line.specs.Grammar.{IsPlan};
ghost use Rattle.survey.specs.Surveys.{IsSurvey};
ghost use Rattle.stuff.specs.Traces.{KeepsTrace};

use bcc_lattice::vertex_count;
use command_line::Plan;
use samples::Field;
use snap_rule::Shares;
use st_base::{Gate, NoMemory, Status, Tally};
use std::alloc::Global;
use std::thread::Threads;
use survey::{Survey, Trace, survey};

// So many ledgers that begin at 0.
fn tallies(alloc: Global, count: u32) -> Result<Vec<Tally>, NoMemory>
    ensures len { IfOk result (λ ts. length ts.items ≡ count) }
    ensures none { IfOk result (λ ts. All (λ t. t.count ≡ 0) ts.items) }
{
    match Vec::from_elem(alloc, Tally::new(), count as usize) {
        Ok(ledgers) => Ok(ledgers),
        Err(_) => Err(NoMemory),
    }
}

/// The survey of a field by the workers of a plan.
pub fn survey_of<'f, G: Gate + Sync, R: Threads + Sync>(
    rt: &R,
    alloc: Global,
    field: &'f Field,
    shares: Shares,
    plan: Plan,
    gate: &G,
) -> Result<Survey<'f>, NoMemory>
    requires { IsPlan plan }
    ensures subject { IfOk result (λ s. s.subject ≡ record { field = field.now; shares = shares }) }
    ensures layout { IfOk result (λ s. s.layout ≡ record { dims = field.now.dims; slab = plan.slab }) }
    ensures limits { IsShares shares }
    ensures survey { IfOk result IsSurvey }
{
    // There are so few vertices that each ledger has room for them.
    let _ = vertex_count(field.dims());
    let ledgers = tallies(alloc, plan.workers)?;
    let (survey, _) = survey(rt, alloc, field, shares, plan, gate, ledgers)?;
    Ok(survey)
}

/// How many nodes a survey's mesh has.
pub fn node_count(survey: &Survey) -> u32
    ensures { result ≡ length (mesh survey.now.subject.field survey.now.subject.shares).places }
{
    survey.offsets().nodes()
}

/// How many tetrahedra it has.
pub fn tet_count(survey: &Survey) -> u64
    ensures { result ≡ length (mesh survey.now.subject.field survey.now.subject.shares).tets }
{
    survey.offsets().tets()
}

/// Keeps the trace of a mesh that was told of.
pub fn keep_trace(status: Status, found: Trace, trace: &mut Option<Trace>)
    requires { trace.old ≡ None }
    ensures { KeepsTrace status found trace.new }
{
    match status {
        Status::Done => *trace = Some(found),
        Status::BadWords { .. }
        | Status::BadHeader { .. }
        | Status::Unsupported { .. }
        | Status::TooLarge { .. }
        | Status::Truncated { .. }
        | Status::ReadFault
        | Status::WriteFault { .. }
        | Status::NoMemory
        | Status::TooManyTets { .. }
        | Status::BadMesh { .. }
        | Status::NotSound { .. } => {}
    }
}
