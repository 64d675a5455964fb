ghost use Rattle.std.specs.Prelude.{◌≡◌, ◌≢◌, ◌⊎◌, ◌<◌, ◌≤◌, ℕ, List, false, true, length, IfSome, None};
ghost use Rattle.command_line.specs.Grammar.{Command as Meaning, AuditFiles, MakeDemo, Reads, IsPlan};
ghost use Rattle.command_line.specs.declared.Plan.{Plan};
ghost use Rattle.command_words.specs.declared.Source.TheVariants.{File};
ghost use Rattle.command_words.specs.Commands.{meaning_of, mesh_of, plan_with, probe_of, source_of, step_of, IsNear};
ghost use Rattle.formats.specs.declared.Port.{Port};
ghost use Rattle.formats.specs.declared.Port.TheVariants.{Report, Trouble};
ghost use Rattle.st_base.specs.Desk.{IsFile, IsStart};
ghost use Rattle.stuff.specs.Inputs.{outcome_for, told_input, IsInput};
ghost use Rattle.formats.specs.Frames.{AreAxes, IsFrame};
ghost use Rattle.stuff.specs.Outputs.{frame_of as frame_of_lem, files_of, file_name, output_names, all_names, nodes_told, tets_told, IsTextFor, IsTextOf};
ghost use Rattle.stuff.specs.Traces.{IsFieldOf, TraceEnds};
ghost use Rattle.stuff.specs.Ports.{KeepsPorts, PortsEnd};
ghost use Rattle.file_audit.specs.Status.{GrowsAlong, with_names};
ghost use Rattle.stuff.specs.Ends.{Accepts, AuditOf, DemoEnds, InputEnds, WordsEnd, HoldsInput};

use crate::audit::audit_finished;
use crate::demo::make_demo;
use crate::input::read_field;
use crate::mesh::mesh_field;
use crate::probe::write_point;
use crate::signs::write_signs;
use command_words::{Command, Source, read_words};
use st_base::{Axis, Desk, Failed, Frame, Gate, Status, Words};
use std::alloc::Global;
use std::thread::Threads;
use survey::Trace;

// The frame in which the nodes of a volume with these axes are printed.
fn frame_of(world: bool, step: u32, axes: [Axis; 3]) -> Frame
    requires step { 1 ≤ step }
    requires step_bound { step ≤ 64 }
    requires axes { AreAxes axes }
    ensures frame { result ≡ frame_of_lem world step axes }
    ensures limits { IsFrame result }
{
    let world = if world { Some(axes) } else { None };
    Frame { step, world }
}

// Does a command's work on the open input.
fn work<D: Desk + Send, G: Gate + Sync, R: Threads + Sync>(
    rt: &R,
    alloc: Global,
    words: &Words,
    desk: &mut D,
    command: &Command,
    gate: &G,
    trace: &mut Option<Trace>,
) -> Status
    requires no_trace { trace.old ≡ None }
    requires step { 1 ≤ step_of command.now }
    requires step_bound { step_of command.now ≤ 64 }
    requires file { (input : ℕ) × (source_of command.now ≡ File input) }
    requires output { IfSome (mesh_of command.now) (λ m. m.output < length words.now) }
    requires plan { IsPlan (plan_with command.now) }
    requires numbering { IfSome (mesh_of command.now) (λ m. m.numbering ≤ 1) }
    requires point { IfSome (probe_of command.now) (λ p. IsNear p.at) }
    requires is_open { (D.input desk.old).is_open ≡ true }
    requires no_input_fault { (D.input desk.old).faults ≡ 0 }
    requires closed { (p : Port) → IsFile p → (D.ports desk.old p).is_open ≡ false }
    requires report { (D.ports desk.old Report).is_open ≡ true }
    requires no_fault { (p : Port) → p ≢ Trouble → (D.ports desk.old p).faults ≡ 0 }
    ensures input { InputEnds result (HoldsInput (D.input desk.old).left (meaning_of command.now)) (D.input desk.new) }
    ensures ports { PortsEnd D.ports result (files_of (meaning_of command.now)) (file_name words.now (meaning_of command.now)) (IsTextOf (D.input desk.old).left (meaning_of command.now)) desk.old desk.new }
    ensures trace { TraceEnds result (meaning_of command.now) (IsFieldOf (D.input desk.old).left (meaning_of command.now)) trace.new }
    ensures words { (place : ℕ) → result ≢ Status.BadWords place }
    ensures accepted { (c : Meaning) (text : List ℕ) → HoldsInput (D.input desk.old).left (meaning_of command.now) c text → KeepsPorts (D.ports desk.old) (D.ports desk.new) ⊎ Accepts (outcome_for c text) text (D.input desk.new).left }
    ensures report_open { (D.ports desk.new Report).is_open ≡ true }
    ensures tries { GrowsAlong (output_names words.now (meaning_of command.now)) (D.tried desk.old) (D.tried desk.new) }
    ensures all_tried { result ≡ Status.Done → D.tried desk.new ≡ with_names (D.tried desk.old) (output_names words.now (meaning_of command.now)) }
    ensures trouble { D.ports desk.new Trouble ≡ D.ports desk.old Trouble }
    ensures held { (n : List ℕ) → D.held desk.new n ≡ D.held desk.old n }
{
    let step = command.step();
    let world = command.world();
    let scan = match read_field(alloc, desk, command.level(), command.below(), step, world) {
        Ok(scan) => scan,
        Err(status) => return status,
    };
    match command.mesh() {
        Some(mesh) => {
            let output = words.word(mesh.output);
            let plan = command.plan();
            let frame = frame_of(world, step, scan.axes);
            mesh_field(
                rt,
                alloc,
                desk,
                output,
                mesh.faces,
                &scan.field,
                mesh.shares,
                plan,
                frame,
                mesh.numbering,
                mesh.streamed,
                gate,
                trace,
            )
        }
        None => match command.probe() {
            Some(probe) => write_point(
                rt,
                alloc,
                desk,
                &scan.field,
                probe.shares,
                probe.at,
                gate,
                trace,
            ),
            None => write_signs(alloc, desk, &scan.field),
        },
    }
}

/// Carries out the command, and says nothing of trouble.
pub fn run<D: Desk + Send, G: Gate + Sync, R: Threads + Sync>(
    rt: &R,
    alloc: Global,
    words: &Words,
    desk: &mut D,
    gate: &G,
    trace: &mut Option<Trace>,
) -> Status
    requires start { IsStart (D.input desk.old) (D.ports desk.old) (D.tried desk.old) }
    requires no_trace { trace.old ≡ None }
    ensures trace { (c : Meaning) → Reads words.now c → TraceEnds result c (IsFieldOf (told_input (D.held desk.old) words.now c) c) trace.new }
    ensures untraced { (place : ℕ) → result ≡ Status.BadWords place → trace.new ≡ None }
    ensures words { WordsEnd result words.now }
    ensures input { InputEnds result (IsInput words.now (D.held desk.old)) (D.input desk.new) }
    ensures ports { (c : Meaning) → Reads words.now c → PortsEnd D.ports result (files_of c) (file_name words.now c) (IsTextFor (D.held desk.old) words.now c) desk.old desk.new }
    ensures accepted { (c : Meaning) (text : List ℕ) → IsInput words.now (D.held desk.old) c text → KeepsPorts (D.ports desk.old) (D.ports desk.new) ⊎ Accepts (outcome_for c text) text (D.input desk.new).left }
    ensures report_open { (D.ports desk.new Report).is_open ≡ true }
    ensures unread { (place : ℕ) → result ≡ Status.BadWords place → (p : Port) → D.ports desk.new p ≡ D.ports desk.old p }
    ensures trouble { D.ports desk.new Trouble ≡ D.ports desk.old Trouble }
    ensures tried { (c : Meaning) → Reads words.now c → GrowsAlong (all_names words.now c) (D.tried desk.old) (D.tried desk.new) }
    ensures all_tried { result ≡ Status.Done → (c : Meaning) → Reads words.now c → D.tried desk.new ≡ with_names (D.tried desk.old) (all_names words.now c) }
    ensures none_tried { (place : ℕ) → result ≡ Status.BadWords place → D.tried desk.new ≡ D.tried desk.old }
    ensures demo { (size seed : ℕ) (plan : Plan) → Reads words.now (MakeDemo size seed plan) → DemoEnds D.ports result (D.input desk.old) (D.input desk.new) desk.old desk.new }
    ensures audit { (input : ℕ) → Reads words.now (AuditFiles input) → AuditOf result (D.input desk.new) (nodes_told (D.held desk.old) words.now input) (tets_told (D.held desk.old) words.now input) }
    ensures held { (n : List ℕ) → D.held desk.new n ≡ D.held desk.old n }
{
    let command = match read_words(words) {
        Ok(command) => command,
        Err(place) => return Status::BadWords { place },
    };
    match command.source() {
        Source::File { input } => match desk.open_input(words.word(input)) {
            Ok(()) => work(rt, alloc, words, desk, &command, gate, trace),
            Err(Failed) => Status::ReadFault,
        },
        Source::Phantom { size, seed } => {
            make_demo(rt, alloc, desk, size, seed, command.plan(), gate, trace)
        }
        Source::Finished { input } => audit_finished(alloc, desk, words.word(input)),
    }
}
