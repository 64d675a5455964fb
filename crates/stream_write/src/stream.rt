ghost use Rattle.std.specs.Prelude.{◌≡◌, ◌≤◌, true, OnOk, IfOk};
ghost use Rattle.std.specs.Io.KnownBytes.{Appends};
ghost use Rattle.command_line.specs.Grammar.{IsPlan};
ghost use Rattle.formats.specs.Frames.{IsFrame};
ghost use Rattle.mesh_rounds.specs.Puts.{PutsText};
ghost use Rattle.mesh_rounds.specs.Rounds.{all_extremes, all_lines};
ghost use Rattle.slab_work.specs.Rounds.{lines_of_rounds};
ghost use Rattle.slab_work.specs.Surveyed.{AreKept, surveyed};
ghost use Rattle.stream_write.specs.Streams.{IsMeshFile, lines_at};

use crate::lines::stream_lines;
use dihedral::Extremes;
use node_ele_write::PutFault;
use slab_emit::Lines;
use slab_work::{Plan, Survey, source_of};
use st_base::{Desk, Frame, Gate, Port};
use std::alloc::Global;
use std::thread::Threads;

// What is written to a port.
fn lines_of(port: Port, frame: Frame, numbering: u32) -> Lines
    ensures { result ≡ lines_at frame numbering port }
{
    match port {
        Port::Node => Lines::Nodes { frame, numbering },
        _ => Lines::Tets { numbering },
    }
}

/// Writes the lines of a survey's nodes to the port Node, or of its tetrahedra to the port Ele, round by round: one is
/// written while the workers make the next, so that at most two rounds are in memory. They are numbered from
/// `numbering`, which is 0 or 1. Gives the extremes of the angles of the tetrahedra at Ele, and none at Node.
///
/// `WriteFault` comes only where the port's count of faults rose in this call, and `NoMemory` only where it did not.
/// After either the text has grown by some first bytes of the lines.
pub fn stream_slabs<D: Desk + Send, G: Gate + Sync, R: Threads + Sync>(
    rt: &R,
    alloc: Global,
    survey: &Survey,
    frame: Frame,
    numbering: u32,
    plan: Plan,
    gate: &G,
    port: Port,
    desk: &mut D,
) -> Result<Option<Extremes>, PutFault>
    requires mesh_file { IsMeshFile port }
    requires is_open { (D.ports desk.old port).is_open ≡ true }
    requires plan { IsPlan plan }
    requires frame { IsFrame frame }
    requires numbering { numbering ≤ 1 }
    requires sizes { AreKept frame.step survey.now.subject.field.dims }
    ensures rounds { OnOk result (Appends
        (D.ports desk.old port).text (D.ports desk.new port).text
        (lines_of_rounds (lines_at frame numbering port) (surveyed survey.now) plan.workers)) }
    ensures puts { PutsText D.Desk port desk.old desk.new (all_lines (lines_at frame numbering port) (surveyed survey.now)) result }
    ensures extremes { IfOk result (λ e. e ≡ all_extremes (lines_at frame numbering port) (surveyed survey.now)) }
{
    let source = source_of(survey);
    let lines = lines_of(port, frame, numbering);
    stream_lines(rt, alloc, desk, port, &source, lines, plan.workers, gate)
}
