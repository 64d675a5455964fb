ghost use Rattle.std.specs.Prelude.{◌≡◌, ◌≤◌, ℕ, List, false, length, map, true, IfErr, IfOk};
ghost use Rattle.definitions.specs.Angles.{angles, extremes_of};
ghost use Rattle.definitions.specs.Mesh.{mesh};
ghost use Rattle.definitions.specs.States.{IsShares};
ghost use Rattle.formats.specs.declared.Port.{Port};
ghost use Rattle.formats.specs.declared.Port.TheVariants.{Node, Ele, Report, Trouble};
ghost use Rattle.formats.specs.Frames.{IsFrame};
ghost use Rattle.mesh_texts.specs.Files.{node_text, ele_text};
ghost use Rattle.mesh_texts.specs.Nodes.{mesh_nodes};
ghost use Rattle.slab_work.specs.Surveyed.{AreKept};
ghost use Rattle.st_base.specs.Desk.{IsFile};
ghost use Rattle.st_base.specs.Frames.{OnlyPort};
ghost use Rattle.stuff.specs.Ports.{HasNoFault, IsAtOutput, PortsEnd, mesh_files};
ghost use Rattle.stuff.specs.Outputs.{mesh_name, mesh_text};
ghost use Rattle.file_audit.specs.Status.{GrowsAlong, with_names};
ghost use Rattle.stuff.specs.Writing.{IsThis, Puts, Reports};

use crate::faces::write_adjacency;
use crate::finished::finished;
use crate::lines::{put_nodes, put_tets};
use crate::outputs::open_files;
use crate::surveyed::{node_count, tet_count};
use dihedral::Extremes;
use node_ele_write::{WriteFault, put_all, report_text};
use slab_work::source_of;
use st_base::{Desk, Frame, Gate, NoMemory, Port, Status};
use std::alloc::Global;
use std::thread::Threads;
use survey::Survey;

// Writes the nodes, and finishes their file.
fn write_nodes<D: Desk + Send, G: Gate + Sync, R: Threads + Sync>(
    rt: &R,
    alloc: Global,
    desk: &mut D,
    survey: &Survey,
    frame: Frame,
    numbering: u32,
    streamed: bool,
    workers: u32,
    gate: &G,
) -> Result<(), Status>
    requires is_open { (D.ports desk.old Node).is_open ≡ true }
    requires faults { (D.ports desk.old Node).faults ≡ 0 }
    requires frame { IsFrame frame }
    requires sizes { AreKept frame.step survey.now.subject.field.dims }
    requires numbering { numbering ≤ 1 }
    requires some_workers { 1 ≤ workers }
    requires most_workers { workers ≤ 64 }
    ensures kind { IfErr result IsAtOutput }
    ensures puts { Puts result Node (D.ports desk.old Node) (D.ports desk.new Node) (node_text frame numbering (mesh_nodes survey.now.subject.field survey.now.subject.shares)) }
    ensures apart { OnlyPort D.Desk Node desk.old desk.new }
{
    let source = source_of(survey);
    let put = put_nodes(
        rt,
        alloc,
        desk,
        Port::Node,
        &source,
        frame,
        numbering,
        streamed,
        workers,
        gate,
    );
    finished(desk, Port::Node, put)
}

// Writes the tetrahedra, and finishes their file; and tells the extremes of their angles.
fn write_tets<D: Desk + Send, G: Gate + Sync, R: Threads + Sync>(
    rt: &R,
    alloc: Global,
    desk: &mut D,
    survey: &Survey,
    numbering: u32,
    streamed: bool,
    workers: u32,
    gate: &G,
) -> Result<Option<Extremes>, Status>
    requires is_open { (D.ports desk.old Ele).is_open ≡ true }
    requires faults { (D.ports desk.old Ele).faults ≡ 0 }
    requires numbering { numbering ≤ 1 }
    requires some_workers { 1 ≤ workers }
    requires most_workers { workers ≤ 64 }
    ensures kind { IfErr result IsAtOutput }
    ensures puts { Puts result Ele (D.ports desk.old Ele) (D.ports desk.new Ele) (ele_text numbering (mesh survey.now.subject.field survey.now.subject.shares).tets) }
    ensures extremes { IfOk result (λ e. e ≡ extremes_of (angles (mesh survey.now.subject.field survey.now.subject.shares))) }
    ensures apart { OnlyPort D.Desk Ele desk.old desk.new }
{
    let source = source_of(survey);
    let put = put_tets(
        rt,
        alloc,
        desk,
        Port::Ele,
        &source,
        numbering,
        streamed,
        workers,
        gate,
    );
    finished(desk, Port::Ele, put)
}

/// Writes a text to Report.
pub fn write_report<D: Desk>(desk: &mut D, text: &[u8]) -> Status
    requires is_open { (D.ports desk.old Report).is_open ≡ true }
    requires faults { (D.ports desk.old Report).faults ≡ 0 }
    ensures kind { IsAtOutput result }
    ensures is_open { (D.ports desk.new Report).is_open ≡ true }
    ensures reports { Reports result (D.ports desk.old Report) (D.ports desk.new Report) text.now }
    ensures apart { OnlyPort D.Desk Report desk.old desk.new }
{
    match put_all(desk, Port::Report, text) {
        Ok(()) => Status::Done,
        Err(WriteFault) => Status::WriteFault { port: Port::Report },
    }
}

/// Opens the files of a survey's mesh, writes and finishes each, and writes its report to Report. The nodes and tetrahedra
/// are written round by round.
pub fn write_mesh<D: Desk + Send, G: Gate + Sync, R: Threads + Sync>(
    rt: &R,
    alloc: Global,
    desk: &mut D,
    output: &[u8],
    faces: bool,
    survey: &Survey,
    frame: Frame,
    numbering: u32,
    streamed: bool,
    workers: u32,
    gate: &G,
) -> Status
    requires closed { (p : Port) → IsFile p → (D.ports desk.old p).is_open ≡ false }
    requires report { (D.ports desk.old Report).is_open ≡ true }
    requires faults { HasNoFault (D.ports desk.old) }
    requires limits { IsShares survey.now.subject.shares }
    requires few { faces ≡ true → length (mesh survey.now.subject.field survey.now.subject.shares).tets ≤ 33554432 }
    requires frame { IsFrame frame }
    requires sizes { AreKept frame.step survey.now.subject.field.dims }
    requires numbering { numbering ≤ 1 }
    requires some_workers { 1 ≤ workers }
    requires most_workers { workers ≤ 64 }
    ensures kind { IsAtOutput result }
    ensures report_open { (D.ports desk.new Report).is_open ≡ true }
    ensures ends { PortsEnd D.ports result (mesh_files faces) (mesh_name output.now) (IsThis (mesh_text frame numbering survey.now.subject.field survey.now.subject.shares)) desk.old desk.new }
    ensures tries { GrowsAlong (map (mesh_name output.now) (mesh_files faces)) (D.tried desk.old) (D.tried desk.new) }
    ensures all_tried { result ≡ Status.Done → D.tried desk.new ≡ with_names (D.tried desk.old) (map (mesh_name output.now) (mesh_files faces)) }
    ensures input { D.input desk.new ≡ D.input desk.old }
    ensures trouble { D.ports desk.new Trouble ≡ D.ports desk.old Trouble }
    ensures held { (n : List ℕ) → D.held desk.new n ≡ D.held desk.old n }
{
    match open_files(alloc, desk, output, faces) {
        Ok(()) => {}
        Err(status) => return status,
    }
    match write_nodes(
        rt, alloc, desk, survey, frame, numbering, streamed, workers, gate,
    ) {
        Ok(()) => {}
        Err(status) => return status,
    }
    let extremes = match write_tets(rt, alloc, desk, survey, numbering, streamed, workers, gate) {
        Ok(extremes) => extremes,
        Err(status) => return status,
    };
    match write_adjacency(alloc, desk, survey, faces, numbering) {
        Ok(()) => {}
        Err(status) => return status,
    }
    let nodes = node_count(survey);
    let tets = tet_count(survey);
    match report_text(alloc, nodes, tets, extremes, numbering) {
        Ok(text) => write_report(desk, &text),
        Err(NoMemory) => Status::NoMemory,
    }
}
