ghost use Rattle.std.specs.Prelude.{◌≡◌, ◌≤◌, ◌⊎◌, ℕ, List, false, length, map, true, None};
ghost use Rattle.command_line.specs.Grammar.{IsPlan};
ghost use Rattle.definitions.specs.Mesh.{mesh};
ghost use Rattle.definitions.specs.States.{IsShares};
ghost use Rattle.formats.specs.declared.Port.{Port};
ghost use Rattle.formats.specs.declared.Port.TheVariants.{Report, Trouble};
ghost use Rattle.formats.specs.Frames.{IsFrame};
ghost use Rattle.slab_work.specs.Surveyed.{AreKept};
ghost use Rattle.st_base.specs.Desk.{IsFile};
ghost use Rattle.stuff.specs.Ends.{MeshEnds};
ghost use Rattle.stuff.specs.Ports.{HasNoFault, KeepsPorts, PortsEnd, mesh_files};
ghost use Rattle.stuff.specs.Outputs.{mesh_name, mesh_status, mesh_text};
ghost use Rattle.stuff.specs.Traces.{TracesMesh};
ghost use Rattle.file_audit.specs.Status.{GrowsAlong, with_names};
ghost use Rattle.stuff.specs.Writing.{IsThis};

use crate::files::write_mesh;
use crate::surveyed::{keep_trace, survey_of, tet_count};
use command_line::Plan;
use samples::Field;
use snap_rule::Shares;
use st_base::{Desk, Frame, Gate, NoMemory, Status};
use std::alloc::Global;
use std::thread::Threads;
use survey::{Survey, Trace};

/// With faces and neighbours a mesh has no more tetrahedra than these, so that their list and its neighbours have room
/// in 6 GB.
const MOST_TETS: u64 = 33_554_432;

// Writes the mesh of a survey, if it does not have too many tetrahedra.
fn write_survey<D: Desk + Send, G: Gate + Sync, R: Threads + Sync>(
    rt: &R,
    alloc: Global,
    desk: &mut D,
    output: &[u8],
    faces: bool,
    survey: &Survey,
    frame: Frame,
    numbering: u32,
    streamed: bool,
    workers: u32,
    gate: &G,
) -> Status
    requires closed { (p : Port) → IsFile p → (D.ports desk.old p).is_open ≡ false }
    requires report { (D.ports desk.old Report).is_open ≡ true }
    requires faults { HasNoFault (D.ports desk.old) }
    requires frame { IsFrame frame }
    requires limits { IsShares survey.now.subject.shares }
    requires sizes { AreKept frame.step survey.now.subject.field.dims }
    requires numbering { numbering ≤ 1 }
    requires some_workers { 1 ≤ workers }
    requires most_workers { workers ≤ 64 }
    ensures kind { MeshEnds (mesh_status faces (length (mesh survey.now.subject.field survey.now.subject.shares).tets)) result }
    ensures unused { KeepsPorts (D.ports desk.old) (D.ports desk.new) ⊎ (mesh_status faces (length (mesh survey.now.subject.field survey.now.subject.shares).tets) ≡ Status.Done) }
    ensures report_open { (D.ports desk.new Report).is_open ≡ true }
    ensures ends { PortsEnd D.ports result (mesh_files faces) (mesh_name output.now) (IsThis (mesh_text frame numbering survey.now.subject.field survey.now.subject.shares)) desk.old desk.new }
    ensures tries { GrowsAlong (map (mesh_name output.now) (mesh_files faces)) (D.tried desk.old) (D.tried desk.new) }
    ensures all_tried { result ≡ Status.Done → D.tried desk.new ≡ with_names (D.tried desk.old) (map (mesh_name output.now) (mesh_files faces)) }
    ensures input { D.input desk.new ≡ D.input desk.old }
    ensures trouble { D.ports desk.new Trouble ≡ D.ports desk.old Trouble }
    ensures held { (n : List ℕ) → D.held desk.new n ≡ D.held desk.old n }
{
    let tets = tet_count(survey);
    if faces && tets > MOST_TETS {
        return Status::TooManyTets { tets };
    }
    write_mesh(
        rt, alloc, desk, output, faces, survey, frame, numbering, streamed, workers, gate,
    )
}

/// Makes the mesh of a field, by the workers of a plan, and writes it to files whose names are `output` with `.node` and
/// `.ele`, and with `.face` and `.neigh` if the faces and neighbours are asked for, and its report to Report. Where it is streamed,
/// one round of lines is written while the next is made.
pub fn mesh_field<D: Desk + Send, G: Gate + Sync, R: Threads + Sync>(
    rt: &R,
    alloc: Global,
    desk: &mut D,
    output: &[u8],
    faces: bool,
    field: &Field,
    shares: Shares,
    plan: Plan,
    frame: Frame,
    numbering: u32,
    streamed: bool,
    gate: &G,
    trace: &mut Option<Trace>,
) -> Status
    requires closed { (p : Port) → IsFile p → (D.ports desk.old p).is_open ≡ false }
    requires report { (D.ports desk.old Report).is_open ≡ true }
    requires faults { HasNoFault (D.ports desk.old) }
    requires frame { IsFrame frame }
    requires numbering { numbering ≤ 1 }
    requires no_trace { trace.old ≡ None }
    requires sizes { AreKept frame.step field.now.dims }
    requires plan { IsPlan plan }
    ensures trace { TracesMesh result field.now shares plan.slab trace.new }
    ensures kind { MeshEnds (mesh_status faces (length (mesh field.now shares).tets)) result }
    ensures unused { KeepsPorts (D.ports desk.old) (D.ports desk.new) ⊎ (mesh_status faces (length (mesh field.now shares).tets) ≡ Status.Done) }
    ensures report_open { (D.ports desk.new Report).is_open ≡ true }
    ensures ends { PortsEnd D.ports result (mesh_files faces) (mesh_name output.now) (IsThis (mesh_text frame numbering field.now shares)) desk.old desk.new }
    ensures tries { GrowsAlong (map (mesh_name output.now) (mesh_files faces)) (D.tried desk.old) (D.tried desk.new) }
    ensures all_tried { result ≡ Status.Done → D.tried desk.new ≡ with_names (D.tried desk.old) (map (mesh_name output.now) (mesh_files faces)) }
    ensures input { D.input desk.new ≡ D.input desk.old }
    ensures trouble { D.ports desk.new Trouble ≡ D.ports desk.old Trouble }
    ensures held { (n : List ℕ) → D.held desk.new n ≡ D.held desk.old n }
{
    match survey_of(rt, alloc, field, shares, plan, gate) {
        Ok(survey) => {
            let status = write_survey(
                rt,
                alloc,
                desk,
                output,
                faces,
                &survey,
                frame,
                numbering,
                streamed,
                plan.workers,
                gate,
            );
            keep_trace(status, survey.into_trace(), trace);
            status
        }
        Err(NoMemory) => Status::NoMemory,
    }
}
