ghost use Rattle.std.specs.Prelude.{◌≡◌, ◌≢◌, ◌++◌, [], ◌≤◌, ℕ, List, true, IfOk, None};
ghost use Rattle.formats.specs.declared.Port.{Port};
ghost use Rattle.formats.specs.declared.Port.TheVariants.{Report, Trouble};
ghost use Rattle.formats.specs.Texts.{sign_line};
ghost use Rattle.command_line.specs.Grammar.{IsPlan};
ghost use Rattle.definitions.specs.Mesh.{mesh};
ghost use Rattle.mesh_texts.specs.Report.{report};
ghost use Rattle.st_base.specs.Frames.{OnlyPort};
ghost use Rattle.stuff.specs.Ports.{IsAtOutput, PortsEnd};
ghost use Rattle.stuff.specs.Outputs.{demo_field, demo_text, usual_shares};
ghost use Rattle.stuff.specs.Traces.{IsTraceOf, TracesMesh};

use crate::files::write_report;
use crate::signs::sign_text;
use crate::surveyed::{keep_trace, node_count, survey_of, tet_count};
use command_line::Plan;
use mesh_rounds::extremes;
use node_ele_write::report_text;
use phantom::phantom;
use samples::{Field, Level};
use slab_work::source_of;
use snap_rule::Shares;
use st_base::{Desk, Gate, NoMemory, Status};
use std::alloc::Global;
use std::thread::Threads;
use survey::{Survey, Trace};

// The field of a volume that is made from a size and a seed, at level 199.5.
fn field_of_demo(alloc: Global, size: u32, seed: u64) -> Result<Field, NoMemory>
    requires low { 1 ≤ size }
    requires high { size ≤ 128 }
    ensures { IfOk result (λ field. field ≡ demo_field size seed) }
{
    let Some(level) = Level::new(399) else {
        unreachable!()
    };
    let volume = phantom(alloc, size, seed)?;
    Field::of_volume(alloc, volume, level, false)
}

// The report of the mesh of a survey. The lines of the mesh are given up round by round.
fn report_of_survey<G: Gate + Sync, R: Threads + Sync>(
    rt: &R,
    alloc: Global,
    survey: &Survey,
    workers: u32,
    gate: &G,
) -> Result<Vec<u8>, NoMemory>
    requires some_workers { 1 ≤ workers }
    requires most_workers { workers ≤ 64 }
    ensures { IfOk result (λ text. text.items ≡ report 0 (mesh survey.now.subject.field survey.now.subject.shares)) }
{
    let source = source_of(survey);
    let nodes = node_count(survey);
    let tets = tet_count(survey);
    let extremes = extremes(rt, alloc, &source, workers, gate)?;
    report_text(alloc, nodes, tets, extremes, 0)
}

// The report of the mesh of a field, with the usual shares.
fn report_of_field<G: Gate + Sync, R: Threads + Sync>(
    rt: &R,
    alloc: Global,
    field: &Field,
    plan: Plan,
    gate: &G,
) -> Result<(Vec<u8>, Trace), NoMemory>
    requires { IsPlan plan }
    ensures text { IfOk result (λ r. r.0.items ≡ report 0 (mesh field.now usual_shares)) }
    ensures trace { IfOk result (λ r. IsTraceOf field.now usual_shares plan.slab r.1) }
{
    let Some(shares) = Shares::new(1023, 1687) else {
        unreachable!()
    };
    let survey = survey_of(rt, alloc, field, shares, plan, gate)?;
    let text = report_of_survey(rt, alloc, &survey, plan.workers, gate)?;
    Ok((text, survey.into_trace()))
}

// The line of a field's signs, and the report of its mesh.
fn text_of_field<G: Gate + Sync, R: Threads + Sync>(
    rt: &R,
    alloc: Global,
    field: &Field,
    plan: Plan,
    gate: &G,
) -> Result<(Vec<u8>, Trace), NoMemory>
    requires { IsPlan plan }
    ensures text { IfOk result (λ r. r.0.items ≡ sign_line field.now ++ report 0 (mesh field.now usual_shares)) }
    ensures trace { IfOk result (λ r. IsTraceOf field.now usual_shares plan.slab r.1) }
{
    let mut text = sign_text(alloc, field)?;
    let (report, trace) = report_of_field(rt, alloc, field, plan, gate)?;
    if text.extend_from_slice(&report).is_err() {
        return Err(NoMemory);
    }
    Ok((text, trace))
}

// What is told of a demo.
fn text_of_demo<G: Gate + Sync, R: Threads + Sync>(
    rt: &R,
    alloc: Global,
    size: u32,
    seed: u64,
    plan: Plan,
    gate: &G,
) -> Result<(Vec<u8>, Trace), NoMemory>
    requires plan { IsPlan plan }
    requires low { 1 ≤ size }
    requires high { size ≤ 128 }
    ensures text { IfOk result (λ r. r.0.items ≡ demo_text (demo_field size seed) Report) }
    ensures trace { IfOk result (λ r. IsTraceOf (demo_field size seed) usual_shares plan.slab r.1) }
{
    let field = field_of_demo(alloc, size, seed)?;
    text_of_field(rt, alloc, &field, plan, gate)
}

/// Makes a volume from a size and a seed, counts its signs at level 199.5, meshes it, and writes the line of signs
/// and the report to Report.
pub fn make_demo<D: Desk, G: Gate + Sync, R: Threads + Sync>(
    rt: &R,
    alloc: Global,
    desk: &mut D,
    size: u32,
    seed: u64,
    plan: Plan,
    gate: &G,
    trace: &mut Option<Trace>,
) -> Status
    requires plan { IsPlan plan }
    requires no_trace { trace.old ≡ None }
    requires low { 1 ≤ size }
    requires high { size ≤ 128 }
    requires report { (D.ports desk.old Report).is_open ≡ true }
    requires faults { (p : Port) → p ≢ Trouble → (D.ports desk.old p).faults ≡ 0 }
    ensures trace { TracesMesh result (demo_field size seed) usual_shares plan.slab trace.new }
    ensures kind { IsAtOutput result }
    ensures report_open { (D.ports desk.new Report).is_open ≡ true }
    ensures ends { (name : Port → List ℕ) → PortsEnd D.ports result [] name (λ p text. text ≡ demo_text (demo_field size seed) p) desk.old desk.new }
    ensures no_memory { result ≡ Status.NoMemory → (p : Port) → p ≢ Trouble → D.ports desk.new p ≡ D.ports desk.old p }
    ensures apart { OnlyPort D.Desk Report desk.old desk.new }
{
    match text_of_demo(rt, alloc, size, seed, plan, gate) {
        Ok((text, found)) => {
            let status = write_report(desk, &text);
            keep_trace(status, found, trace);
            status
        }
        Err(NoMemory) => Status::NoMemory,
    }
}
