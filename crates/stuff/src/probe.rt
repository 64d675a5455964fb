ghost use Rattle.std.specs.Prelude.{◌≡◌, ℕ, List, [], true, IfOk, None};
ghost use Rattle.formats.specs.declared.Port.{Port};
ghost use Rattle.formats.specs.declared.Port.TheVariants.{Report};
ghost use Rattle.command_words.specs.Commands.{IsNear};
ghost use Rattle.mesh_probe.specs.ProbeTexts.{probe_text};
ghost use Rattle.st_base.specs.Frames.{OnlyPort};
ghost use Rattle.stuff.specs.Ports.{HasNoFault, IsAtOutput, PortsEnd};
ghost use Rattle.stuff.specs.Outputs.{point_text};
ghost use Rattle.stuff.specs.Traces.{IsTraceOf, TracesMesh};

use crate::files::write_report;
use crate::surveyed::{keep_trace, survey_of};
use command_line::Plan;
use mesh_probe::probe_line;
use samples::Field;
use snap_rule::Shares;
use st_base::{Desk, Gate, NoMemory, Place, Status};
use std::alloc::Global;
use std::thread::Threads;
use survey::Trace;

// The line that tells which tetrahedron of the mesh of a field holds a point.
fn text_of_point<G: Gate + Sync, R: Threads + Sync>(
    rt: &R,
    alloc: Global,
    field: &Field,
    shares: Shares,
    point: Place,
    gate: &G,
) -> Result<(Vec<u8>, Trace), NoMemory>
    requires { IsNear point }
    ensures text { IfOk result (λ r. r.0.items ≡ probe_text field.now shares point) }
    ensures trace { IfOk result (λ r. IsTraceOf field.now shares 4 r.1) }
{
    let plan = Plan {
        workers: 4,
        slab: 4,
    };
    let survey = survey_of(rt, alloc, field, shares, plan, gate)?;
    let text = probe_line(
        alloc,
        field,
        shares,
        survey.states(),
        survey.offsets(),
        point,
    )?;
    Ok((text, survey.into_trace()))
}

/// Writes to Report which tetrahedron of the mesh of a field holds a point, in units of 1/8192 of a kept voxel step.
pub fn write_point<D: Desk, G: Gate + Sync, R: Threads + Sync>(
    rt: &R,
    alloc: Global,
    desk: &mut D,
    field: &Field,
    shares: Shares,
    point: Place,
    gate: &G,
    trace: &mut Option<Trace>,
) -> Status
    requires near { IsNear point }
    requires no_trace { trace.old ≡ None }
    requires report { (D.ports desk.old Report).is_open ≡ true }
    requires faults { HasNoFault (D.ports desk.old) }
    ensures trace { TracesMesh result field.now shares 4 trace.new }
    ensures kind { IsAtOutput result }
    ensures report_open { (D.ports desk.new Report).is_open ≡ true }
    ensures ends { (name : Port → List ℕ) → PortsEnd D.ports result [] name (λ p text. text ≡ point_text field.now shares point p) desk.old desk.new }
    ensures apart { OnlyPort D.Desk Report desk.old desk.new }
{
    match text_of_point(rt, alloc, field, shares, point, gate) {
        Ok((text, found)) => {
            let status = write_report(desk, &text);
            keep_trace(status, found, trace);
            status
        }
        Err(NoMemory) => Status::NoMemory,
    }
}
